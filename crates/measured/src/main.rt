//! Settles drafts by any measure and costing of the bench, for comparison with another program: a session in lines, with two
//! commands more, `measure NAME` and `costing NAME`, by which the settlings that follow go.
#![tactic(auto)]

use command::command::Command;
use costing::costing::Costing;
use costing::total::Total;
use costing::worst::Worst;
use costing::worst_then_total::WorstThenTotal;
use draft::draft::{Draft, MOST_TONES};
use lines::fixed::Hundredths;
use measure::blind::OctaveBlind;
use measure::measure::Measure;
use measure::pitch::PitchGap;
use measure::weighted::WeightedPrimes;
use refusal::Refusal;
use settling::settle::{STACK_PLACES, Settled, Sheet};
use settling::step::Step;
use settling::yardstick::Yardstick;
use std::io::{BufRead, BufReader};
use std::{fmt, io};

/// The measures to choose from.
#[derive(Clone, Copy)]
enum MeasureName {
    Barlow,
    Euler,
    Pitch,
    BlindBarlow,
    BlindPitch,
}

/// The costings to choose from.
#[derive(Clone, Copy)]
enum CostingName {
    Total,
    Worst,
    WorstThenTotal,
}

/// A cost as the answer to a settling tells it.
#[derive(Clone, Copy)]
struct Cost<V>(V);

impl fmt::Display for Cost<u64> {
    fn fmt<W: fmt::Write>(&self, f: &mut fmt::Formatter<W>) -> fmt::Result {
        let Cost(cost) = self;
        write!(f, "{cost}")
    }
}

impl fmt::Display for Cost<(u64, u64)> {
    fn fmt<W: fmt::Write>(&self, f: &mut fmt::Formatter<W>) -> fmt::Result {
        let Cost((worst, total)) = self;
        write!(f, "{worst},{total}")
    }
}

/// What a session has entered, by what it settles, and what its answers are printed by.
#[derive(Drop)]
struct Desk<'a> {
    rt: &'a HostRuntime,
    draft: Draft,
    sheet: Sheet,
    measure: MeasureName,
    costing: CostingName,
}

impl<'a> Desk<'a> {
    /// A desk with an empty draft, which settles by Barlow's measure and the total of the distances.
    fn new(rt: &'a HostRuntime) -> Self {
        Desk {
            rt,
            draft: Draft::new(),
            sheet: [0; MOST_TONES],
            measure: MeasureName::Barlow,
            costing: CostingName::Total,
        }
    }

    /// Answers one line; columns are told only of the text.
    fn answer(&mut self, line: &[u8]) -> io::Result<()> {
        if self.choose(line) {
            return println!(self.rt; "ok");
        }
        match Command::read(line) {
            Ok(command) => self.take(command.step),
            Err(fault) => self.refuse(fault.refusal()),
        }
    }

    /// Takes up a choice of measure or costing; says whether the line was one.
    // stays (no plainer): an arm for each line that sets something or false; a TryFrom for each name would split the line first
    fn choose(&mut self, line: &[u8]) -> bool {
        match line {
            b"measure barlow" => self.measure = MeasureName::Barlow,
            b"measure euler" => self.measure = MeasureName::Euler,
            b"measure pitch" => self.measure = MeasureName::Pitch,
            b"measure blind-barlow" => self.measure = MeasureName::BlindBarlow,
            b"measure blind-pitch" => self.measure = MeasureName::BlindPitch,
            b"costing total" => self.costing = CostingName::Total,
            b"costing worst" => self.costing = CostingName::Worst,
            b"costing worst-then-total" => self.costing = CostingName::WorstThenTotal,
            _ => return false,
        }
        true
    }

    /// Takes the step of a command, and prints the answer.
    fn take(&mut self, step: Step) -> io::Result<()> {
        match step {
            Step::Settle { allowance } => self.settle(allowance),
            Step::Enter { call } => match self.draft.put(call) {
                Ok(()) => println!(self.rt; "ok"),
                Err(fault) => self.refuse(fault.refusal(0)),
            },
        }
    }

    /// Prints a refusal.
    fn refuse(&self, refusal: Refusal) -> io::Result<()> {
        println!(self.rt; "{refusal}")
    }

    /// Settles by the measure that was chosen.
    // stays (no plainer): each arm calls one generic text at another type; a costing has its own value type, so no dyn Costing
    fn settle(&mut self, allowance: u64) -> io::Result<()> {
        let barlow = WeightedPrimes::barlow();
        match self.measure {
            MeasureName::Barlow => self.settle_by(&barlow, allowance),
            MeasureName::Euler => self.settle_by(&WeightedPrimes::euler(), allowance),
            MeasureName::Pitch => self.settle_by(&PitchGap, allowance),
            MeasureName::BlindBarlow => self.settle_by(&OctaveBlind(barlow), allowance),
            MeasureName::BlindPitch => self.settle_by(&OctaveBlind(PitchGap), allowance),
        }
    }

    /// Settles by a measure and the costing that was chosen.
    fn settle_by<M: Measure>(&mut self, measure: &M, allowance: u64) -> io::Result<()> {
        match self.costing {
            CostingName::Total => self.tell_settling(measure, &Total, allowance),
            CostingName::Worst => self.tell_settling(measure, &Worst, allowance),
            CostingName::WorstThenTotal => self.tell_settling(measure, &WorstThenTotal, allowance),
        }
    }

    /// Settles by a measure and a costing, with a stack from the heap, and prints the answer.
    fn tell_settling<M: Measure, C: Costing>(
        &mut self,
        measure: &M,
        costing: &C,
        allowance: u64,
    ) -> io::Result<()>
    where
        C::Value: Clone,
        Cost<C::Value>: fmt::Display,
    {
        let mut stack = vec![in self.rt.alloc(); costing.nothing(); STACK_PLACES]?;
        let yardstick = Yardstick { measure, costing };
        match yardstick.settle(&self.draft, allowance, &mut self.sheet, &mut stack) {
            Ok(Settled { cost, trials }) => {
                let cost = Cost(cost);
                println!(self.rt; "scale {cost} {trials}")?;
                self.tell_tones()
            }
            Err(fault) => self.refuse(fault.refusal(1)),
        }
    }

    /// Prints the ratio of each tone, and how far it lies from the tone's pitch.
    fn tell_tones(&self) -> io::Result<()> {
        for (tone, number) in self.draft.listed().iter().zip(&self.sheet) {
            let Some(ratio) = tone.candidates().get(usize::from(*number)) else {
                return Ok(());
            };
            let pitch = tone.pitch();
            // stays (proof): the session writes an offset without Display, for whose errors nothing is promised
            let hundredths = ratio.pitch().abs_diff(pitch) / 10;
            let below = ratio.pitch() < pitch && hundredths > 0;
            let sign = if below { '-' } else { '+' };
            let cents = Hundredths(hundredths);
            println!(self.rt; "{ratio} {sign}{cents}")?;
        }
        Ok(())
    }
}

fn main(rt: HostRuntime) -> io::Result<()> {
    let mut desk = Desk::new(&rt);
    for line in BufReader::new(rt.alloc(), rt.stdin())?.split(rt.alloc(), b'\n') {
        let line = line?;
        desk.answer(line.as_slice())?;
    }
    Ok(())
}
