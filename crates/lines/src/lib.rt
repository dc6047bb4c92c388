// The lines that the check program prints (01, "The check program"), put into bytes that the caller lends, at any place that has room for just
// that line: of any numbers, messages and records whatever. Each piece of a line is put where it goes, in just the room that it takes. It stands
// on steps and checks for the values that are printed, and on `itoa`, a library of the kit, for the digits of a number.
#![tactic(auto)]

ghost use Rattle.lines.specs.Text.{delivery_line, refused_pick_line, refused_line, process_line, verdict_line, outside_line, mark_line, text_of};
ghost use Rattle.lines.specs.Adding.{HasRoom, Adds};

use checks::{Mark, Report, Verdict};
use steps::{Message, Process};

mod pieces;

// Lent bytes, and where the text in them ends: what is put next begins there. Every method is put into its callers, so that this place stays in a register
// and a piece of a byte or two is one store: else it goes through memory at each piece, and a line takes half as long again.
#[derive(Drop)]
pub struct Page<'a> {
    pub out: &'a mut [u8],
    pub end: usize,
}

impl Page<'_> {
    // `pick 1 2 suc`, `own 2 1 ack 1 1`
    #[tactic(auto, unfolding(crate::specs::Text::delivery_line))]
    #[inline(always)]
    pub fn put_delivery(&mut self, own: bool, from: u32, to: u32, message: Message)
        requires { HasRoom self.old (delivery_line own from to message) }
        ensures { Adds self.old (delivery_line own from to message) self.new }
    {
        self.put_link(own, from, to);
        self.put_message(message);
        self.put_word(b"\n");
    }

    // `pick 1 2 refused 24`: a delivery that the program chooses itself is never refused with a link.
    #[tactic(auto, unfolding(crate::specs::Text::refused_pick_line))]
    #[inline(always)]
    pub fn put_refused_delivery(&mut self, from: u32, to: u32, number: u32)
        requires { HasRoom self.old (refused_pick_line from to number) }
        ensures { Adds self.old (refused_pick_line from to number) self.new }
    {
        self.put_link(false, from, to);
        self.put_word(b" refused");
        self.put_field(number);
        self.put_word(b"\n");
    }

    // `refused 13`
    #[tactic(auto, unfolding(crate::specs::Text::refused_line))]
    #[inline(always)]
    pub fn put_refused(&mut self, number: u32)
        requires { HasRoom self.old (refused_line number) }
        ensures { Adds self.old (refused_line number) self.new }
    {
        self.put_number_line(b"refused", number);
    }

    // `process 1 1 1 0 1 0 1`
    #[tactic(auto, unfolding(crate::specs::Text::process_line))]
    #[inline(always)]
    pub fn put_process(&mut self, p: u32, x: Process)
        requires { HasRoom self.old (process_line p x) }
        ensures { Adds self.old (process_line p x) self.new }
    {
        self.put_word(b"process");
        self.put_field(p);
        self.put_flags(x);
        self.put_sums(x);
        self.put_word(b"\n");
    }

    // "verdict knot .. else none"
    #[tactic(auto, unfolding(crate::specs::Text::verdict_line))]
    #[inline(always)]
    fn put_verdict(&mut self, verdict: Verdict)
        requires { HasRoom self.old (verdict_line verdict) }
        ensures { Adds self.old (verdict_line verdict) self.new }
    {
        match verdict {
            Verdict::Knot => self.put_word(b"verdict knot\n"),
            Verdict::Free => self.put_word(b"verdict none\n"),
        }
    }

    // `outside 1`
    #[tactic(auto, unfolding(crate::specs::Text::outside_line))]
    #[inline(always)]
    fn put_outside(&mut self, outside: i32)
        requires { HasRoom self.old (outside_line outside) }
        ensures { Adds self.old (outside_line outside) self.new }
    {
        self.put_word(b"outside");
        self.put_count_field(outside);
        self.put_word(b"\n");
    }

    // "mark returned .. else held"
    #[tactic(auto, unfolding(crate::specs::Text::mark_line))]
    #[inline(always)]
    fn put_mark(&mut self, mark: Mark)
        requires { HasRoom self.old (mark_line mark) }
        ensures { Adds self.old (mark_line mark) self.new }
    {
        match mark {
            Mark::Returned => self.put_word(b"mark returned\n"),
            Mark::Held => self.put_word(b"mark held\n"),
        }
    }

    // "deliveries; the report": the five lines from `over` to `mark`
    #[tactic(auto, unfolding(crate::specs::Text::report_text, crate::specs::Text::over_line, crate::specs::Text::escape_line))]
    #[inline(always)]
    pub fn put_report(&mut self, report: Report)
        requires { HasRoom self.old (text_of report) }
        ensures { Adds self.old (text_of report) self.new }
    {
        self.put_number_line(b"over", report.deliveries);
        self.put_verdict(report.verdict);
        self.put_outside(report.outside);
        self.put_number_line(b"escape", report.escape);
        self.put_mark(report.mark);
    }
}
