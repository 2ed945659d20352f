// Files that several tests read.

/// A small file of 52 bytes.
pub const SMALL: &str = "# NUMBER ALTERNATIVES: 3\n4: 1,2,3\n3: 2,3,1\n2: 3,2,1\n";

/// A file with metadata of all sorts, and lines that end by a carriage return and a line feed.
pub const FULL: &[u8] = b"# FILE NAME: 00999-00000001.soc\r
# TITLE: Board, 2020: second round\r
# DESCRIPTION:\r
# DATA TYPE: soc\r
# MODIFICATION TYPE: original\r
# RELATES TO:\r
# RELATED FILES:\r
# PUBLICATION DATE: 2020-01-01\r
# MODIFICATION DATE: 2022-09-16\r
# NUMBER ALTERNATIVES: 3\r
# NUMBER VOTERS: 9\r
# NUMBER UNIQUE ORDERS: 3\r
# ALTERNATIVE NAME 1: Ito, K.: list A\r
# ALTERNATIVE NAME 2: Muller\r
# ALTERNATIVE NAME 3: Ruiz\r
4: 1,2,3\r
3: 2,3,1\r
2: 3,2,1\r
";
