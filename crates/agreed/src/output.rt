// Standard output for std's `write!`, over the one C function that crate io takes for granted: std's own `println!` takes the one
// that numbers its errors for granted too, and `main`, where it gives them on, the one that names them.
use std::fmt;

// The number of standard output.
const STDOUT_FILENO: i32 = 1;

#[derive(Clone, Copy)]
pub struct Output;

impl fmt::Write for Output {
    fn write_str(&mut self, text: &str) -> fmt::Result {
        if io::write_all(STDOUT_FILENO, text.as_bytes()) {
            Ok(())
        } else {
            Err(fmt::Error)
        }
    }
}
