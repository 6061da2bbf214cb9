//! Settles small scales whose figures are known from outside, and prints the answer to each settling and the first
//! three places of the sheet after it.
#![tactic(auto)]

ghost use Rattle.std.specs.Prelude.{◌≡◌};
ghost use Rattle.draft.specs.declared.call.Call.TheVariants.{Tone as ToneCall, Try};
ghost use Rattle.settling.specs.declared.step.Step.TheVariants.{Enter};
ghost use Rattle.figures.specs.Triad.{triad_steps};

use costing::costing::Costing;
use costing::total::Total;
use costing::worst::Worst;
use costing::worst_then_total::WorstThenTotal;
use draft::call::Call;
use draft::draft::MOST_TONES;
use measure::measure::Measure;
use measure::pitch::PitchGap;
use measure::weighted::WeightedPrimes;
use settling::fault::SearchFault;
use settling::settle::{LARGEST_ALLOWANCE, STACK_PLACES};
use settling::step::{Answer, Entry, Step};
use settling::yardstick::Yardstick;
use std::fmt::Debug;
use std::io;

/// What a place of the sheet holds before a run.
const UNTOUCHED: u8 = 255;

/// Prints why a settling gives no scale, and after how many trials if they are told.
fn show_fault(rt: &HostRuntime, fault: SearchFault) -> io::Result<()> {
    let refusal = fault.refusal(1);
    match fault {
        SearchFault::NoScale { trials } => print!(rt; "{refusal} in {trials} trials"),
        _ => print!(rt; "{refusal}"),
    }
}

/// Prints what a run recorded of a step: of a settling the answer and the sheet, of an entry only why it is refused.
fn show_entry<V: Copy + Debug>(rt: &HostRuntime, title: &str, entry: &Entry<V>) -> io::Result<()> {
    match entry.answer {
        Answer::Entered { told: Ok(()) } => return Ok(()),
        Answer::Entered { told: Err(fault) } => {
            let refusal = fault.refusal(1);
            return println!(rt; "{title}: {refusal}");
        }
        Answer::Settled { told: Ok(settled) } => {
            let cost = settled.cost;
            let trials = settled.trials;
            print!(rt; "{title}: scale {cost:?} in {trials} trials")?;
        }
        Answer::Settled { told: Err(fault) } => {
            print!(rt; "{title}: ")?;
            show_fault(rt, fault)?;
        }
    }
    let [first, second, third, ..] = entry.sheet;
    println!(rt; ", sheet {first} {second} {third}")
}

/// Puts the steps to a new draft, settles it by the yardstick, and prints what the run records.
fn show_run<M: Measure, C: Costing>(
    rt: &HostRuntime,
    title: &str,
    yardstick: &Yardstick<M, C>,
    steps: &[Step],
) -> io::Result<()>
where
    C::Value: Clone + Debug,
{
    let heap = rt.alloc();
    let mut stack = vec![in heap; yardstick.costing.nothing(); STACK_PLACES]?;
    let mut sheet = [UNTOUCHED; MOST_TONES];
    let blank = Entry {
        answer: Answer::Entered { told: Ok(()) },
        sheet,
    };
    let mut entries = vec![in heap; blank; steps.len()]?;
    let _ = yardstick.replay(steps, &mut stack, &mut sheet, &mut entries);
    for entry in entries.iter() {
        show_entry(rt, title, entry)?;
    }
    Ok(())
}

/// The step that enters a tone.
fn tone(pitch: i32) -> Step
    ensures { result ≡ Enter (ToneCall pitch) }
{
    Step::Enter {
        call: Call::Tone { pitch },
    }
}

/// The step that enters a candidate of a tone.
fn candidate(tone: usize, numerator: u64, denominator: u64) -> Step
    ensures { result ≡ Enter (Try tone numerator denominator) }
{
    Step::Enter {
        call: Call::Try {
            tone,
            numerator,
            denominator,
        },
    }
}

/// A major triad with two thirds and two fifths to choose from, settled under one bound for all pairs.
fn triad(bound: u64, allowance: u64) -> [Step; 10]
    ensures { result ≡ triad_steps bound allowance }
{
    [
        Step::Enter {
            call: Call::Level { bound },
        },
        tone(0),
        tone(400_000),
        tone(700_000),
        candidate(0, 1, 1),
        candidate(1, 5, 4),
        candidate(1, 81, 64),
        candidate(2, 3, 2),
        candidate(2, 40, 27),
        Step::Settle { allowance },
    ]
}

/// The triad by each costing, and by the gap in pitch, which puts both fifths over the bound.
fn measured(rt: &HostRuntime) -> io::Result<()> {
    let measure = &WeightedPrimes::barlow();
    let steps = triad(600_600, LARGEST_ALLOWANCE);
    let total = Yardstick {
        measure,
        costing: &Total,
    };
    show_run(rt, "triad by total", &total, &steps)?;
    let worst = Yardstick {
        measure,
        costing: &Worst,
    };
    show_run(rt, "triad by worst", &worst, &steps)?;
    let worst_then_total = Yardstick {
        measure,
        costing: &WorstThenTotal,
    };
    show_run(rt, "triad by worst then total", &worst_then_total, &steps)?;
    let pitch_gap = Yardstick {
        measure: &PitchGap,
        costing: &Total,
    };
    show_run(rt, "triad by pitch gap", &pitch_gap, &steps)
}

/// The triad under bounds that its best scale just keeps and just breaks, the latter with trials enough and too few.
fn bounded(rt: &HostRuntime) -> io::Result<()> {
    let yardstick = Yardstick {
        measure: &WeightedPrimes::barlow(),
        costing: &Total,
    };
    let kept = triad(302_302, LARGEST_ALLOWANCE);
    show_run(rt, "triad within 302302", &yardstick, &kept)?;
    let broken = triad(302_301, 5);
    show_run(rt, "triad within 302301, allowance 5", &yardstick, &broken)?;
    let spent = triad(302_301, 4);
    show_run(rt, "triad within 302301, allowance 4", &yardstick, &spent)
}

/// A single tone, which costs nothing: of equal candidates the first, and of no candidate none.
fn single(rt: &HostRuntime) -> io::Result<()> {
    let yardstick = Yardstick {
        measure: &WeightedPrimes::barlow(),
        costing: &Total,
    };
    let settle = Step::Settle {
        allowance: LARGEST_ALLOWANCE,
    };
    let equals = [tone(0), candidate(0, 81, 80), candidate(0, 1, 1), settle];
    show_run(rt, "two candidates", &yardstick, &equals)?;
    let none = [tone(0), Step::Settle { allowance: 0 }];
    show_run(rt, "no candidate, allowance 0", &yardstick, &none)
}

fn main(rt: HostRuntime) -> io::Result<()> {
    measured(&rt)?;
    bounded(&rt)?;
    single(&rt)
}
