// A record's header as it is written, and bytes put into a lent buffer.
ghost use Rattle.std.specs.Prelude.{◌≡◌};
ghost use Rattle.sheet.specs.Format.{standard, new_kind};
ghost use Rattle.sheet.specs.Promise.{cause9};
ghost use Rattle.sheet.specs.Writing.{header_of, record_put, put_at, put_end};

use crate::check::{Check, refuse};
use crate::format::{Role, new_kind};
use crate::record::HEADER;

// The most bytes of a payload whose length a header can tell.
const MOST_PAYLOAD: usize = 4_294_967_295;

// Cause 9: the room is smaller than the bytes that are needed.
pub fn room_check(room: usize, bytes: usize) -> Check
    ensures { result ≡ cause9 room bytes }
{
    refuse(9, bytes, room < bytes)
}

// The header of a record of a kind, with a payload of so many bytes.
pub fn header_of(kind: u16, size: u32) -> [u8; HEADER]
    ensures { result ≡ header_of kind size }
{
    let [a, b, c, d] = size.to_le_bytes();
    let [e, f] = kind.to_le_bytes();
    [a, b, c, d, e, f]
}

// Copies bytes to a place of a buffer where all of them fit, else none; gives the place behind
// what it wrote.
pub fn put(bytes: &[u8], at: usize, buffer: &mut [u8]) -> usize
    ensures buffer_after { buffer.new ≡ put_at buffer.old at bytes.now }
    ensures value { result ≡ put_end buffer.old at bytes.now }
{
    if buffer.len() < at || buffer.len() - at < bytes.len() {
        return at;
    }
    let end = at + bytes.len();
    buffer[at..end].copy_from_slice(bytes);
    end
}

// The same for a record: its header, then its payload; nothing where the payload is longer than a
// header can tell.
pub fn put_record(kind: u16, payload: &[u8], at: usize, buffer: &mut [u8]) -> usize
    ensures buffer_after { buffer.new ≡ put_at buffer.old at (record_put kind payload.now) }
    ensures value { result ≡ put_end buffer.old at (record_put kind payload.now) }
{
    let size = payload.len();
    if MOST_PAYLOAD < size || buffer.len() < at || buffer.len() - at < HEADER + size {
        return at;
    }
    let header = header_of(kind, size as u32);
    let next = put(&header, at, buffer);
    put(payload, next, buffer)
}

// The same for a new record of a role.
pub fn put_role(role: Role, payload: &[u8], at: usize, buffer: &mut [u8]) -> usize
    ensures buffer_after { buffer.new
        ≡ put_at buffer.old at (record_put (new_kind standard role) payload.now) }
    ensures value { result ≡ put_end buffer.old at (record_put (new_kind standard role) payload.now) }
{
    put_record(new_kind(role), payload, at, buffer)
}
