// Lists and payloads of so many rows and bytes. Each begins at 0: the Rust's are vectors, of which only the length shows.
use wire::rows::{Payload, Range};

pub fn rows(count: u16) -> Range {
    Range { first: 0, count }
}

pub fn bytes(length: u16) -> Payload {
    Payload { offset: 0, length }
}
