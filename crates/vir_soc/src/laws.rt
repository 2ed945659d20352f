// What holds of the format. Each law is the contract of a function that does nothing.
ghost use Rattle.std.specs.Prelude.{◌≡◌, ◌≢◌, ◌<◌, ◌≤◌, ◌++◌, All, List, ℕ, count_by, length, map, nat_le, None, Some};
ghost use Rattle.std.specs.Prelude.{Ok, Err, if◌then◌else◌};
ghost use Rattle.vir_profile.specs.SocFiles.{File, is_line_feed, name_of};
ghost use Rattle.vir_soc.specs.declared.fault.SocFault.{SocFault};
ghost use Rattle.vir_soc.specs.declared.kind.SocKind.TheVariants.{VotersDiffer, OrdersDiffer};
ghost use Rattle.vir_soc.specs.Accepted.{IsTrueOf, as_vote, last_name, metadata_lines, vote_lines, vote_of};
ghost use Rattle.vir_soc.specs.Limits.{profile_size_limit};
ghost use Rattle.vir_soc.specs.Soc.{settled, soc};

/// A fault that some bytes settle is that of each file that begins with them.
pub fn fault_stays()
    ensures { (bytes more : List ℕ) (fault : SocFault)
        → settled bytes ≡ Some fault → soc (bytes ++ more) ≡ Err fault }
{}

/// The profile of an accepted file has one line for each line of votes, in order, with its count and
/// its order, and no other line.
pub fn votes_are_lines()
    ensures { (bytes : List ℕ) (file : File)
        → soc bytes ≡ Ok file → map as_vote file.profile.lines ≡ map vote_of (vote_lines bytes) }
{}

/// The name of alternative i in an accepted file is the last one that its metadata gives: none where
/// that one is empty, where no line gives one, or where there is no alternative i.
pub fn names_are_the_last_given()
    ensures { (bytes : List ℕ) (file : File) (i : ℕ)
        → soc bytes ≡ Ok file
        → name_of i file.names ≡ (if nat_le i file.profile.alternatives then last_name i bytes else None) }
{}

/// What the metadata of an accepted file states of its kind and its counts is true of its profile: of
/// the alternatives, of the voters and of the orders, on each line that states it.
pub fn metadata_is_true()
    ensures { (bytes : List ℕ) (file : File)
        → soc bytes ≡ Ok file
        → All (λ stated. IsTrueOf file.profile stated.key stated.value) (metadata_lines bytes) }
{}

/// No line before that of a file's fault has a fault: the bytes of a file settle none as long as they
/// end fewer lines, and are as few as a file may have.
pub fn no_line_before_has_a_fault()
    ensures { (front back : List ℕ) (fault : SocFault)
        → soc (front ++ back) ≡ Err fault
        → length front ≤ profile_size_limit → count_by is_line_feed front < fault.line
        → settled front ≡ None }
{}

/// A fault is settled with its line: by all bytes that end the line, but for a difference of a stated
/// count, which the end of the file alone can show.
pub fn fault_is_settled_with_its_line()
    ensures { (front back : List ℕ) (fault : SocFault)
        → soc (front ++ back) ≡ Err fault
        → fault.line ≤ count_by is_line_feed front
        → fault.kind ≢ VotersDiffer → fault.kind ≢ OrdersDiffer
        → settled front ≡ Some fault }
{}
