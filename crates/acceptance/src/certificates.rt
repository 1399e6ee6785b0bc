//! The laws beside the reports: certificates that are printed are accepted, runs can keep statements, and
//! what begins an image. Changed certificates are in the crate `cases`.

use arcwcet::{certificates_are_accepted, some_run_keeps};
use loader::{images_are_read, other_faults_begin_no_image, truncated_begins_an_image};

#[test]
fn calls_the_laws() {
    certificates_are_accepted();
    some_run_keeps();
    images_are_read();
    truncated_begins_an_image();
    other_faults_begin_no_image();
}
