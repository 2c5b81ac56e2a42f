// A page: text that a program makes before it hands it over.
#![tactic(auto)]

ghost use Rattle.std.specs.Prelude.{[], ◌≡◌, ◌≤◌, ◌+◌, Ok, option_copied};
ghost use Rattle.page.specs.Page.{Printed, Kept, page_size, held_count, whole_text, kept_text, decimal_text, hexadecimal_text};

use std::marker::Model;

// How many bytes a page holds.
pub const PAGE: usize = 65536;

// What a program has made of its text: so many bytes at the front. Once a text did not fit behind them (`Err`), they stay, but nothing
// of the page is handed over.
#[derive(Drop)]
pub struct Page {
    bytes: [u8; PAGE],
    held: Result<usize, usize>,
}

impl Model for Page {
    ghost use Rattle.page.specs.Page.{PageText, page_text, InPage};

    ghost Value = { PageText };

    ghost view = { λ p. page_text p.bytes p.held };

    ghost invariant = { λ p. InPage p.held };
}

impl Page {
    // A page that holds no text.
    pub fn new() -> Page
        ensures { result ≡ Ok [] }
    {
        Page {
            bytes: [0; PAGE],
            held: Ok(0),
        }
    }

    // Drops what is held.
    pub fn clear(&mut self)
        ensures { self.new ≡ Ok [] }
    {
        self.held = Ok(0);
    }

    // How many bytes are held; more than a page where a text did not fit.
    pub fn count(&self) -> usize
        ensures count { result ≡ held_count self.now }
        ensures within { result ≤ page_size + 1 }
    {
        self.held.unwrap_or(PAGE + 1)
    }

    // What is handed over: what is held, or nothing where a text did not fit.
    pub fn text(&self) -> Option<&[u8]>
        ensures { option_copied result ≡ whole_text self.now }
    {
        self.held.ok().map(|held| &self.bytes[..held])
    }

    // The text that is held, also where a further one did not fit.
    pub fn kept(&self) -> &[u8]
        ensures { result.now ≡ kept_text self.now }
    {
        match self.held {
            Ok(held) | Err(held) => &self.bytes[..held],
        }
    }

    // Puts a text behind those that are held. One that does not fit leaves them, and so does whatever comes behind it.
    #[tactic(auto, unfolding(crate::specs::Page::text_after))]
    pub fn put(&mut self, text: &[u8])
        ensures text { Printed text.now self.old self.new }
        ensures kept { Kept text.now self.old self.new }
    {
        let Ok(held) = self.held else {
            return;
        };
        if text.len() > PAGE - held {
            self.held = Err(held);
            return;
        }
        let end = held + text.len();
        self.bytes[held..end].copy_from_slice(text);
        self.held = Ok(end);
    }

    // Puts a number's decimal digits.
    pub fn decimal(&mut self, number: u64)
        ensures text { Printed (decimal_text number) self.old self.new }
        ensures kept { Kept (decimal_text number) self.old self.new }
    {
        let mut text = [0u8; 20];
        let count = io::decimal(number, &mut text);
        self.put(&text[..count]);
    }

    // Puts a number's hexadecimal digits, two at least.
    // Not one function with the above: `io::decimal` and `io::hex` take other arguments, and all that is left is `put`.
    pub fn hexadecimal(&mut self, number: u64)
        ensures text { Printed (hexadecimal_text number) self.old self.new }
        ensures kept { Kept (hexadecimal_text number) self.old self.new }
    {
        let mut text = [0u8; 16];
        let count = io::hex(number, 2, &mut text);
        self.put(&text[..count]);
    }
}
