// Four searches to measure matching by. Usage: patterns_bench REPEATS [time]
// It prints the matches that each finds, which do not vary, and with `time` also the nanoseconds a line takes.
#![tactic(auto)]

use anyhow::anyhow;
use matching::find;
use patterns::Pattern;
use std::env;
use std::time::Instant;

const LINE: usize = 255;

const STARRED: usize = 60;

static EVENTS: [&[u8]; 4] = [
    b"2026-11-17T22:59:03 locker 12 opened by badge 4411: code accepted, charge 87 percent",
    b"2026-11-17T22:59:41 locker 12 shut after 38 seconds with nobody near the row of lockers",
    b"2026-11-17T23:04:10 locker 7 refused the code twice: a third try locks it for an hour",
    b"2026-11-17T23:05:55 service visit to all rows: two batteries changed and no faults left, done",
];

// `x*` sixty times.
fn starred_items() -> [u8; 2 * STARRED] {
    let mut part = [b'x'; 2 * STARRED];
    for star in part.iter_mut().skip(1).step_by(2) {
        *star = b'*';
    }
    part
}

// How many of the lines match, and where: the ends of the matches added up, over all repeats.
#[derive(Clone, Copy)]
struct Tally {
    matches: u64,
    ends: u64,
}

fn search_all(pattern: &Pattern, lines: &[&[u8]], repeats: u32) -> Tally {
    let mut tally = Tally {
        matches: 0,
        ends: 0,
    };
    for _ in 0..repeats {
        for line in lines {
            if let Ok(Some(found)) = find(pattern, line, 0) {
                tally.matches = tally.matches.wrapping_add(1);
                tally.ends = tally.ends.wrapping_add(found.end as u64);
            }
        }
    }
    tally
}

fn measure(
    rt: &HostRuntime,
    name: &str,
    part: &[u8],
    lines: &[&[u8]],
    repeats: u32,
    timed: bool,
) -> anyhow::Result<()> {
    let pattern = Pattern::read(b'/', part).map_err(|_fault| anyhow!("bad pattern"))?;
    let start = Instant::now(rt)?;
    let tally = search_all(&pattern, lines, repeats);
    let nanos = start.elapsed(rt)?.as_nanos();
    let searches = u128::from(repeats).wrapping_mul(lines.len() as u128);
    let matches = tally.matches;
    let ends = tally.ends;
    println!(rt; "{name}: {searches} lines, {matches} matches, ends {ends}")?;
    if timed && searches > 0 {
        let each = nanos / searches;
        println!(rt; "    {each} ns a line")?;
    }
    Ok(())
}

fn main(rt: HostRuntime) -> anyhow::Result<()> {
    let mut args = env::args(&rt)?;
    let _program = args.next();
    let count = args
        .next()
        .ok_or_else(|| anyhow!("usage: patterns_bench REPEATS [time]"))?;
    let repeats = count.as_str().parse::<u32>()?;
    let timed = args.next().is_some();
    let equal: [&[u8]; 1] = [&[b'x'; LINE]];
    let starred = starred_items();
    let searches: [(&str, &[u8], &[&[u8]]); 4] = [
        ("60 starred items on 255 equal bytes", &starred, &equal),
        ("x*x*x*y on 255 x", b"x*x*x*y", &equal),
        ("a plain word", b"batteries", &EVENTS),
        ("a bracket set with star", b"[a-z][a-z]*,", &EVENTS),
    ];
    for (name, part, lines) in searches {
        measure(&rt, name, part, lines, repeats, timed)?;
    }
    Ok(())
}
