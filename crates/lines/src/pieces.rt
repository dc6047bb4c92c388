// Pieces of a line: words, numbers and fields. Each is put at the end of a page, in just the room that it takes; no other byte changes.
ghost use Rattle.std.specs.Prelude.{◌≡◌, length};
ghost use Rattle.lines.specs.Text.{decimal, signed, field, count_field, who, link_text, message_text, flags_text, sums_text, number_line};
ghost use Rattle.lines.specs.Adding.{HasRoom, Adds};

use crate::Page;
use steps::{Message, Process};

// How many digits n has.
fn count_digits(n: u32) -> usize
    ensures { result ≡ length (decimal n) }
{
    let mut rest = n;
    let mut count: usize = 1;
    while rest >= 10 {
        rest /= 10;
        count += 1;
    }
    count
}

impl Page<'_> {
    // Any bytes.
    #[inline(always)]
    pub fn put_word(&mut self, word: &[u8])
        requires { HasRoom self.old word.now }
        ensures { Adds self.old word.now self.new }
    {
        let end = self.end + word.len();
        self.out[self.end..end].copy_from_slice(word);
        self.end = end;
    }

    // The digits of n, counted first and then written from the last to the first where they go.
    #[inline(always)]
    fn put_number(&mut self, n: u32)
        requires { HasRoom self.old (decimal n) }
        ensures { Adds self.old (decimal n) self.new }
    {
        let end = self.end + count_digits(n);
        itoa::write_digits(u64::from(n), self.out, end);
        self.end = end;
    }

    // "a negative number with a hyphen before it"
    #[inline(always)]
    fn put_signed(&mut self, z: i32)
        requires { HasRoom self.old (signed z) }
        ensures { Adds self.old (signed z) self.new }
    {
        if z < 0 {
            self.put_word(b"-");
        }
        self.put_number(z.unsigned_abs());
    }

    // A space, and a number.
    #[tactic(auto, unfolding(crate::specs::Text::field))]
    #[inline(always)]
    pub fn put_field(&mut self, n: u32)
        requires { HasRoom self.old (field n) }
        ensures { Adds self.old (field n) self.new }
    {
        self.put_word(b" ");
        self.put_number(n);
    }

    // A space, and a signed number.
    #[tactic(auto, unfolding(crate::specs::Text::count_field))]
    #[inline(always)]
    pub fn put_count_field(&mut self, z: i32)
        requires { HasRoom self.old (count_field z) }
        ensures { Adds self.old (count_field z) self.new }
    {
        self.put_word(b" ");
        self.put_signed(z);
    }

    // "pick or own, sender, receiver"
    #[tactic(auto, unfolding(crate::specs::Text::link_text))]
    #[inline(always)]
    pub fn put_link(&mut self, own: bool, from: u32, to: u32)
        requires { HasRoom self.old (link_text own from to) }
        ensures { Adds self.old (link_text own from to) self.new }
    {
        self.put_who(own);
        self.put_field(from);
        self.put_field(to);
    }

    #[inline(always)]
    fn put_who(&mut self, own: bool)
        requires { HasRoom self.old (who own) }
        ensures { Adds self.old (who own) self.new }
    {
        if own {
            self.put_word(b"own");
        } else {
            self.put_word(b"pick");
        }
    }

    // "kind, count for ack", and at the end the second count (02, N3)
    #[tactic(auto, unfolding(crate::specs::Text::message_text))]
    #[inline(always)]
    pub fn put_message(&mut self, message: Message)
        requires { HasRoom self.old (message_text message) }
        ensures { Adds self.old (message_text message) self.new }
    {
        match message {
            Message::Suc => self.put_word(b" suc"),
            Message::Pre => self.put_word(b" pre"),
            Message::Ack(counts) => {
                self.put_word(b" ack");
                self.put_count_field(counts.count);
                self.put_count_field(counts.second);
            }
        }
    }

    // "succeeding, preceding, subordinate"
    #[tactic(auto, unfolding(crate::specs::Text::flags_text))]
    #[inline(always)]
    pub fn put_flags(&mut self, x: Process)
        requires { HasRoom self.old (flags_text x) }
        ensures { Adds self.old (flags_text x) self.new }
    {
        self.put_field(x.succeeding);
        self.put_field(x.preceding);
        self.put_field(x.subordinate);
    }

    // "cs, num", and at the end the second sum (02, N3)
    #[tactic(auto, unfolding(crate::specs::Text::sums_text))]
    #[inline(always)]
    pub fn put_sums(&mut self, x: Process)
        requires { HasRoom self.old (sums_text x) }
        ensures { Adds self.old (sums_text x) self.new }
    {
        self.put_count_field(x.cs);
        self.put_field(x.num);
        self.put_count_field(x.second);
    }

    // A whole line of a word and a number.
    #[tactic(auto, unfolding(crate::specs::Text::number_line))]
    #[inline(always)]
    pub fn put_number_line(&mut self, word: &[u8], n: u32)
        requires { HasRoom self.old (number_line word.now n) }
        ensures { Adds self.old (number_line word.now n) self.new }
    {
        self.put_word(word);
        self.put_field(n);
        self.put_word(b"\n");
    }
}
