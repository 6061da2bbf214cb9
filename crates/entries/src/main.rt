//! Runs a list of entries, good and bad, through a draft, and prints each answer and what the draft then holds.
#![tactic(auto)]

use draft::call::Call;
use draft::draft::Draft;
use std::io;

/// A draft, with what its answers are printed by.
#[derive(Drop)]
struct Desk<'a> {
    rt: &'a HostRuntime,
    draft: Draft,
}

impl<'a> Desk<'a> {
    /// A desk with an empty draft.
    fn new(rt: &'a HostRuntime) -> Self {
        Desk {
            rt,
            draft: Draft::new(),
        }
    }

    /// Puts a call to the draft and prints the answer.
    fn enter(&mut self, call: Call) -> io::Result<()> {
        match self.draft.put(call) {
            Ok(()) => println!(self.rt; "ok"),
            Err(fault) => {
                let refusal = fault.refusal(0);
                println!(self.rt; "{refusal}")
            }
        }
    }

    /// Prints the candidates of a tone with their numbers.
    fn list(&self, tone: usize) -> io::Result<()> {
        let Some(candidates) = self.draft.candidates(tone) else {
            return println!(self.rt; "no tone {tone}");
        };
        for (number, ratio) in candidates.iter().enumerate() {
            println!(self.rt; "tone {tone} candidate {number}: {ratio}")?;
        }
        Ok(())
    }

    /// Prints the bound of a pair of tones.
    fn show_bound(&self, tone: usize, other: usize) -> io::Result<()> {
        match self.draft.bound_of(tone, other) {
            Some(bound) => println!(self.rt; "bound {tone} {other}: {bound}"),
            None => println!(self.rt; "no bound {tone} {other}"),
        }
    }

    /// Prints the pitch of a tone.
    fn show_pitch(&self, tone: usize) -> io::Result<()> {
        match self.draft.pitch(tone) {
            Some(pitch) => println!(self.rt; "pitch {tone}: {pitch}"),
            None => println!(self.rt; "no tone {tone}"),
        }
    }

    /// Enters a candidate of a tone.
    fn try_ratio(&mut self, tone: usize, numerator: u64, denominator: u64) -> io::Result<()> {
        self.enter(Call::Try {
            tone,
            numerator,
            denominator,
        })
    }

    /// Enters the bound of a pair of tones.
    fn put_bound(&mut self, tone: usize, other: usize, bound: u64) -> io::Result<()> {
        self.enter(Call::Bound { tone, other, bound })
    }

    /// Pitches at their limits, and every place for a tone taken.
    fn tones(&mut self) -> io::Result<()> {
        for pitch in [-12_000_001, 12_000_001, -12_000_000, 12_000_000, 0] {
            self.enter(Call::Tone { pitch })?;
        }
        for tone in 0..4 {
            self.show_pitch(tone)?;
        }
        for _ in 0..30 {
            self.enter(Call::Tone { pitch: 400_000 })?;
        }
        let count = self.draft.tones();
        println!(self.rt; "tones {count}")
    }

    /// Candidates: faults of the ratio first, then the tone, then the ninth; a strike in the middle.
    fn candidates(&mut self) -> io::Result<()> {
        for (tone, numerator, denominator) in [
            (40, 0, 1),
            (40, 4_294_967_296, 1),
            (40, 17, 16),
            (40, 3, 2),
            (32, 1, 1),
            (31, 34, 17),
        ] {
            self.try_ratio(tone, numerator, denominator)?;
        }
        for numerator in 1..11 {
            self.try_ratio(0, numerator, 1)?;
        }
        self.try_ratio(0, 0, 1)?;
        self.enter(Call::Strike {
            tone: 0,
            candidate: 3,
        })?;
        self.list(0)?;
        for (tone, candidate) in [(0, 7), (32, 0), (1, 0), (0, 6), (0, 0)] {
            self.enter(Call::Strike { tone, candidate })?;
        }
        self.try_ratio(0, 2, 1)?;
        self.list(0)?;
        self.list(31)?;
        self.list(32)
    }

    /// Bounds: their limit, one tone twice, both ways.
    fn bounds(&mut self) -> io::Result<()> {
        for (tone, other, bound) in [
            (0, 0, 1_073_741_825),
            (0, 0, 1),
            (0, 32, 1),
            (32, 0, 1),
            (3, 1, 600_600),
            (30, 31, 0),
            (31, 0, 1_073_741_824),
        ] {
            self.put_bound(tone, other, bound)?;
        }
        for (tone, other) in [
            (1, 3),
            (3, 1),
            (1, 2),
            (2, 3),
            (0, 3),
            (31, 30),
            (0, 31),
            (2, 2),
            (5, 32),
        ] {
            self.show_bound(tone, other)?;
        }
        Ok(())
    }

    /// Level after bound, its limit, and bound after level.
    fn levels(&mut self) -> io::Result<()> {
        self.enter(Call::Level {
            bound: 1_073_741_825,
        })?;
        self.show_bound(1, 3)?;
        self.enter(Call::Level { bound: 302_301 })?;
        self.put_bound(1, 0, 7)?;
        for (tone, other) in [(1, 3), (0, 1), (1, 0), (0, 2), (31, 30)] {
            self.show_bound(tone, other)?;
        }
        Ok(())
    }

    /// A bound for all pairs reaches the tones that come after it.
    fn level_first(&mut self) -> io::Result<()> {
        self.enter(Call::Level { bound: 5 })?;
        self.enter(Call::Tone { pitch: 0 })?;
        self.put_bound(0, 1, 9)?;
        self.enter(Call::Tone { pitch: 1 })?;
        self.show_bound(0, 1)?;
        self.put_bound(0, 1, 9)?;
        self.show_bound(1, 0)
    }
}

fn main(rt: HostRuntime) -> io::Result<()> {
    let mut desk = Desk::new(&rt);
    desk.show_bound(0, 1)?;
    desk.tones()?;
    desk.show_bound(0, 31)?;
    desk.candidates()?;
    desk.bounds()?;
    desk.levels()?;
    Desk::new(&rt).level_first()
}
