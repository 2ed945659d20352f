// The laws of certificates can be called.
use vir_cert::{
    accepted_certificates_are_within_limits, first_certificates_are_read,
    printed_certificates_are_read, valid_certificates_are_within_limits,
};

#[test]
fn laws_can_be_called() {
    printed_certificates_are_read();
    accepted_certificates_are_within_limits();
    first_certificates_are_read();
    valid_certificates_are_within_limits();
}
