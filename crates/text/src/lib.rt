// Text put piece by piece into fixed memory, for programs that print a line at a time. `read_full` reads such a program's input.
//
// A piece that does not fit is left out: nothing of it is stored. That is no error here, so `write!`, which would ask each caller
// to answer one, is no plainer than `put_field`.
#![tactic(auto)]

ghost use Rattle.std.specs.Prelude.{◌≡◌, [], ◌≤◌, replicate, take, drop};
ghost use Rattle.refusals.specs.Rejections.{number_of};
ghost use Rattle.text.specs.Pieces.{Contents, put_at, DecimalPut, RejectionPut};

mod input;
mod placed;

pub use input::read_full;
pub use placed::{put, put_decimal, put_field};
use refusals::Rejection;
use std::marker::Model;

// At most N bytes of text.
#[derive(Drop)]
pub struct Text<const N: usize> {
    bytes: [u8; N],
    length: usize,
}

// Clauses see the text and what lies behind it.
impl<const N: usize> Model for Text<N> {
    ghost Value = { Contents };

    ghost view = { λ t. record { text = take t.length t.bytes; behind = drop t.length t.bytes } };

    ghost invariant = { λ t. t.length ≤ N };
}

impl<const N: usize> Text<N> {
    pub fn new() -> Self
        ensures { result ≡ record { text = []; behind = replicate N 0 } }
    {
        Text {
            bytes: [0; N],
            length: 0,
        }
    }

    pub fn as_bytes(&self) -> &[u8]
        ensures { result.now ≡ self.now.text }
    {
        &self.bytes[..self.length]
    }

    pub fn put(&mut self, text: &[u8])
        ensures { self.new ≡ put_at self.old text.now }
    {
        let n = text.len();
        if N - self.length < n {
            return;
        }
        let from = self.length;
        let bytes = &mut self.bytes[..];
        bytes[from..from + n].copy_from_slice(text);
        self.length += n;
    }

    // Puts the decimal digits of a number, as few as hold it.
    pub fn put_decimal(&mut self, n: u64)
        ensures { DecimalPut self.old n self.new }
    {
        let mut digits = [0u8; 20];
        let k = io::decimal(n, &mut digits);
        self.put(&digits[..k]);
    }

    // Puts a name and then a number.
    pub fn put_field(&mut self, name: &[u8], n: u64)
        ensures { DecimalPut (put_at self.old name.now) n self.new }
    {
        self.put(name);
        self.put_decimal(n);
    }

    // Puts the line of a rejection.
    pub fn put_rejection(&mut self, rejection: Rejection)
        ensures { RejectionPut self.old (number_of rejection) self.new }
    {
        self.put_field(b"refused ", u64::from(u32::from(rejection)));
        self.put(b"\n");
    }
}
