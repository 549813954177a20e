//! The printer that gathers a command's output and remembers a refused allocation.
ghost use Rattle.std.specs.Prelude.{◌≡◌, ◌++◌, [], false, codes, decimal};
ghost use Rattle.lburg_tool.specs.Printing.{Adds};

use itoa::Buffer;
use lcc_base::Bytes;
use std::alloc::Global;

/// A text that grows, and whether an allocation for it was refused. After a refusal the text
/// says nothing.
#[derive(Drop)]
pub(crate) struct Printer {
    pub(crate) text: Bytes,
    pub(crate) is_refused: bool,
}

impl Printer {
    /// An empty text.
    pub(crate) fn new(alloc: Global) -> Self
        ensures text { result.text ≡ [] }
        ensures fine { result.is_refused ≡ false }
    {
        Printer {
            text: Bytes::new(alloc),
            is_refused: false,
        }
    }

    /// Adds bytes at the end.
    pub(crate) fn print(&mut self, bytes: &[u8])
        ensures { Adds self.old self.new bytes.now }
    {
        if self.text.extend(bytes).is_err() {
            self.is_refused = true;
        }
    }

    /// Adds a decimal number at the end.
    pub(crate) fn print_number(&mut self, number: u64)
        ensures { Adds self.old self.new (decimal number) }
    {
        let mut buffer = Buffer::new();
        self.print(buffer.format(number).as_bytes());
    }

    /// Adds a blank and a decimal number at the end. Numbers of one digit take no buffer.
    pub(crate) fn print_behind_blank(&mut self, number: u16)
        ensures { Adds self.old self.new (codes " " ++ decimal number) }
    {
        if number < 10 {
            self.print(&[b' ', b'0' + number as u8]);
        } else {
            self.print(b" ");
            self.print_number(u64::from(number));
        }
    }
}
