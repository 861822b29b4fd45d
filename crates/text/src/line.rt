// The listing's lines in a lent output (01, "The answer").
ghost use Rattle.std.specs.Prelude.{◌≡◌, ◌+◌, ◌*◌, ◌≤◌, length};
ghost use Rattle.text.specs.Lines.{mode_word, victim_words, victims_line, part_line, part_lines, close_line, refused_line};
ghost use Rattle.text.specs.Writer.{Room, after};
ghost use Rattle.text.specs.Wrote.{Wrote};

use crate::word::Writer;
use cursor::Refusal;
use gus::Part;

// "mode (N normal, A rollback)"
#[tactic(auto, unfolding(crate::specs::Decimal::ascii, crate::specs::Lines::mode_word))]
fn mode_word(rolling: bool) -> &'static [u8; 3]
    ensures { result.now ≡ mode_word rolling }
{
    if rolling { b" A " } else { b" N " }
}

#[tactic(auto, using(crate::proofs::Writer::steps), unfolding(crate::specs::Decimal::ascii, crate::specs::Lines::victims_line, crate::specs::Lines::part_line, crate::specs::Lines::close_line, crate::specs::Lines::refused_line))]
impl Writer<'_> {
    fn words(&mut self, victims: &[u8])
        requires { Room self.old (victim_words victims.now) }
        ensures { self.new ≡ after self.old (victim_words victims.now) }
    {
        for job in victims {
            self.field(b" ", *job);
        }
    }

    pub(crate) fn victims(&mut self, victims: &[u8])
        requires { Room self.old (victims_line victims.now) }
        ensures { self.new ≡ after self.old (victims_line victims.now) }
    {
        self.field(b"victims ", victims.len());
        self.words(victims);
        self.word(b"\n");
    }

    pub(crate) fn part(&mut self, p: Part, start: u64)
        requires { Room self.old (part_line start p) }
        ensures { self.new ≡ after self.old (part_line start p) }
    {
        self.field(b"part ", p.job);
        self.field(mode_word(p.rolling), p.time);
        self.field(b" at ", start);
        self.word(b"\n");
    }

    pub(crate) fn parts(&mut self, parts: &[Part], first: u64)
        requires { (length parts.now ≤ 96) × (first ≤ 4294967295) × Room self.old (part_lines first parts.now) }
        ensures { self.new ≡ after self.old (part_lines first parts.now) }
    {
        let mut start = first;
        for p in parts {
            self.part(*p, start);
            start += u64::from(p.time);
        }
    }

    pub(crate) fn close(&mut self, total: i32, end: u32, rounds: usize)
        requires { Room self.old (close_line total end rounds) }
        ensures { self.new ≡ after self.old (close_line total end rounds) }
    {
        self.word(b"total ");
        self.number(total);
        self.field(b" end ", end);
        self.field(b" rounds ", rounds);
        self.word(b"\n");
    }

    fn refused(&mut self, refusal: Refusal)
        requires { Room self.old (refused_line refusal.number refusal.place) }
        ensures { self.new ≡ after self.old (refused_line refusal.number refusal.place) }
    {
        self.field(b"refused ", refusal.number);
        self.field(b" at ", refusal.place);
        self.word(b"\n");
    }
}

#[tactic(auto, using(crate::proofs::Writer::steps), unfolding(crate::specs::Writer::after))]
pub(crate) fn put_refused(out: &mut [u8], refusal: Refusal) -> usize
    requires { length (refused_line refusal.number refusal.place) ≤ length out.old }
    ensures { Wrote out.old 0 (refused_line refusal.number refusal.place) out.new result }
{
    let mut text = Writer::new(out);
    text.refused(refusal);
    text.at
}
