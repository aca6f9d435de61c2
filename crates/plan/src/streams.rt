//! The standard streams that are closed when the program starts.

use std::fs::OpenOptions;
use std::os::fd::{AsRawFd, IntoRawFd};

// The null device.
const NULL: &str = "/dev/null";

// The descriptor of standard input. Those of standard output and standard error are 1 and 2.
const INPUT: i32 = 0;

/// Opens the null device in the place of each standard stream that is closed, so that no file or
/// connection gets its descriptor. The use of such a stream still fails: the device is opened for
/// writing in the place of standard input, and for reading in the place of the others.
pub fn fill_closed(rt: &HostRuntime) {
    for stream in [INPUT, 1, 2] {
        let is_input = stream == INPUT;
        let device = OpenOptions::new()
            .read(!is_input)
            .write(is_input)
            .open(rt, NULL);
        // A file gets the lowest free descriptor. Any other one is closed again.
        match device {
            Ok(file) if file.as_raw_fd() == stream => {
                let _ = file.into_raw_fd();
            }
            _ => {}
        }
    }
}
