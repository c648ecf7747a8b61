// The system's errors in words, which are those of the C library: std's own are fewer, and are no part of a line.
use std::io::Error;

pub const EINTR: i32 = 4;

pub const EEXIST: i32 = 17;

pub const ENAMETOOLONG: i32 = 36;

pub const EILSEQ: i32 = 84;

// A write that takes no byte has no number.
pub fn reason_of(error: &Error) -> &'static str {
    match error.raw_os_error() {
        None | Some(..=0 | 5) => "Input/output error",
        Some(1) => "Operation not permitted",
        Some(2) => "No such file or directory",
        Some(EINTR) => "Interrupted system call",
        Some(6) => "No such device or address",
        Some(9) => "Bad file descriptor",
        Some(11) => "Resource temporarily unavailable",
        Some(12) => "Cannot allocate memory",
        Some(13) => "Permission denied",
        Some(16) => "Device or resource busy",
        Some(EEXIST) => "File exists",
        Some(18) => "Invalid cross-device link",
        Some(19) => "No such device",
        Some(20) => "Not a directory",
        Some(21) => "Is a directory",
        Some(22) => "Invalid argument",
        Some(23) => "Too many open files in system",
        Some(24) => "Too many open files",
        Some(25) => "Inappropriate ioctl for device",
        Some(26) => "Text file busy",
        Some(27) => "File too large",
        Some(28) => "No space left on device",
        Some(29) => "Illegal seek",
        Some(30) => "Read-only file system",
        Some(31) => "Too many links",
        Some(32) => "Broken pipe",
        Some(ENAMETOOLONG) => "File name too long",
        Some(39) => "Directory not empty",
        Some(40) => "Too many levels of symbolic links",
        Some(75) => "Value too large for defined data type",
        Some(EILSEQ) => "Invalid or incomplete multibyte or wide character",
        Some(95) => "Operation not supported",
        Some(110) => "Connection timed out",
        Some(116) => "Stale file handle",
        Some(122) => "Disk quota exceeded",
        Some(_) => "the system refused it",
    }
}
