// What standard error is told.
use std::io::Error;

// Standard error.
const ERRORS: i32 = 2;

// `blink: NAME: REASON`.
pub fn fail(rt: &HostRuntime, name: &[u8], error: Error) {
    io::write_all(ERRORS, b"blink: ");
    io::write_all(ERRORS, name);
    io::write_all(ERRORS, b": ");
    write_reason(rt, error);
    io::write_all(ERRORS, b"\n");
}

fn write_reason(rt: &HostRuntime, error: Error) {
    match format!(in rt.alloc(); "{error}") {
        Ok(text) => {
            io::write_all(ERRORS, without_number(&text).as_bytes());
        }
        Err(_) => {
            io::write_all(ERRORS, b"out of memory");
        }
    }
}

// The system's text alone, without the number that the library puts behind it.
fn without_number(text: &str) -> &str {
    match text.rsplit_once(" (os error ") {
        Some((reason, _)) => reason,
        None => text,
    }
}
