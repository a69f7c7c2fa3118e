// The services by name.
use crate::reader::{Reader, Unreadable};

#[derive(Clone, Copy)]
pub(crate) enum Service {
    Judge,
    Certify,
    Build,
    Refusal,
    Part,
    Transfer,
    Desk,
    Word,
    Write,
    House,
    Limits,
}

// To a name belongs the space behind it where fields follow.
const NAMES: [(&[u8], Service); 11] = [
    (b"judge ", Service::Judge),
    (b"certify ", Service::Certify),
    (b"build ", Service::Build),
    (b"refusal ", Service::Refusal),
    (b"part ", Service::Part),
    (b"transfer ", Service::Transfer),
    (b"desk ", Service::Desk),
    (b"word ", Service::Word),
    (b"write ", Service::Write),
    (b"house ", Service::House),
    (b"limits", Service::Limits),
];

// How many bytes of a line are the first ones of a name.
fn agreed(line: &[u8], name: &[u8]) -> usize {
    line.iter().zip(name).take_while(|(a, b)| a == b).count()
}

impl Reader<'_> {
    // The service whose name stands next. Where none does, the line cannot be read from the first byte
    // on with which no name goes on.
    pub(crate) fn service(&mut self) -> Result<Service, Unreadable> {
        let mut most = 0;
        for (name, service) in NAMES {
            if let Some(rest) = self.rest.strip_prefix(name) {
                self.rest = rest;
                return Ok(service);
            }
            most = most.max(agreed(self.rest, name));
        }
        Err(Unreadable {
            left: self.rest.len().saturating_sub(most),
        })
    }
}
