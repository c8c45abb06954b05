// The events of a drill.
ghost use Rattle.std.specs.Prelude.{◌≡◌, ◌++◌, ◌<◌, ◌^◌, OnOk};
ghost use Rattle.scenario_drill.specs.Drill.{act, bank, end_of_key, event_with, for_two, purge, recent, start_kk, stop, through_centre};

use crate::writing::Script;
use x_base::NoMemory;

fn bank(number: u64) -> &'static [u8]
    ensures { result.now ≡ bank number }
{
    match number {
        0 => b"BANKA",
        1 => b"BANKB",
        _ => b"BANKC",
    }
}

impl Script {
    fn for_two(&mut self, kind: &[u8], p: &[u8], q: &[u8]) -> Result<(), NoMemory>
        ensures { OnOk result (self.new.text ≡ self.old.text ++ for_two kind.now p.now q.now) }
    {
        self.word(kind)?;
        self.word(p)?;
        self.last(q)
    }

    fn through_centre(
        &mut self,
        kind: &[u8],
        p: &[u8],
        centre: &[u8],
        q: &[u8],
    ) -> Result<(), NoMemory>
        ensures { OnOk result (self.new.text ≡ self.old.text ++ through_centre kind.now p.now centre.now q.now) }
    {
        self.word(kind)?;
        self.word(p)?;
        self.word(centre)?;
        self.last(q)
    }

    fn end_of_key(&mut self, p: &[u8], q: &[u8], c: u64) -> Result<(), NoMemory>
        ensures { OnOk result (self.new.text ≡ self.old.text ++ end_of_key p.now q.now c) }
    {
        self.word(b"END")?;
        self.word(p)?;
        self.word(q)?;
        self.push(p)?;
        self.push(b".")?;
        self.push(p)?;
        self.push(b".K1.")?;
        self.last_number(1 + c % 8)
    }

    fn purge(&mut self, p: &[u8]) -> Result<(), NoMemory>
        ensures { OnOk result (self.new.text ≡ self.old.text ++ purge p.now) }
    {
        self.word(b"PURGE")?;
        self.last(p)
    }

    fn start_kk(&mut self, p: &[u8], q: &[u8], c: u64) -> Result<(), NoMemory>
        ensures { OnOk result (self.new.text ≡ self.old.text ++ start_kk p.now q.now c) }
    {
        self.word(b"STARTKK")?;
        self.word(p)?;
        self.word(q)?;
        self.word(b"K1")?;
        self.push(b"N")?;
        self.number_word(c % 10)?;
        self.last(b"DOUBLE")
    }

    fn recent(&mut self, j: u64) -> Result<(), NoMemory>
        ensures { OnOk result (self.new.text ≡ self.old.text ++ recent j) }
    {
        self.word(b"RECENT")?;
        self.last_number(j)
    }

    fn stop(&mut self, b: u64, c: u64) -> Result<(), NoMemory>
        ensures { OnOk result (self.new.text ≡ self.old.text ++ stop b c) }
    {
        self.word(b"STOP")?;
        self.number_word(1 + c % 5)?;
        self.last_number(b)?;
        self.recent(1)
    }

    /// The lines that three draws give.
    fn act(&mut self, a: u64, b: u64, c: u64) -> Result<(), NoMemory>
        requires { b < 2 ^ 31 }
        ensures { OnOk result (self.new.text ≡ self.old.text ++ act a b c) }
    {
        let p = bank(b % 3);
        let q = bank((b + 1 + c % 2) % 3);
        match a % 16 {
            0 | 1 => self.for_two(b"START", p, q),
            2 => self.through_centre(b"ASK", p, b"CKDX", q),
            3 => self.through_centre(b"TRANSLATE", p, b"CKTX", q),
            4 => self.for_two(b"RESEND", p, q),
            5 => self.for_two(b"DROP", p, q),
            6 => self.end_of_key(p, q, c),
            7 => self.purge(p),
            8 => self.start_kk(p, q, c),
            9..=12 => self.recent(1),
            13 | 14 => self.recent(1 + c % 4),
            _ => self.stop(b, c),
        }
    }

    /// Event `number` + 1 with these draws.
    #[tactic(auto, unfolding(crate::specs::Drill::event_with))]
    pub(crate) fn event(&mut self, number: u32, a: u64, b: u64, c: u64) -> Result<(), NoMemory>
        requires { b < 2 ^ 31 }
        ensures { OnOk result (self.new.text ≡ self.old.text ++ event_with number a b c) }
    {
        self.word(b"TIME")?;
        self.last_number(number as u64 + 1)?;
        self.act(a, b, c)
    }
}
