// Scripts of calls, run card by card.
use crate::failed::Failed;
use crate::files::load;
use drafts::call::{Call, Reply};
use faults::fault::Fault;
use hold::Hold;
use holder::replay::{Line, replay};
use plans::plan::Plan;
use plans::view::View;
use script::hash::fnv;
use script::request::{Pile, Request, request_of};
use script::words::Wrong;
use store::slices::Memory;
use tray::Tray;

// What every byte of a window's buffer is before the call.
const FILL: u8 = 170;

// A card of a script: the file that it is made from, its length, and the layers over it.
#[derive(Clone, Copy)]
struct Source<'a> {
    name: &'a str,
    length: u32,
    pile: Pile,
}

// A line that is no call is named, with what is wrong with it.
fn wrong_line(rt: &HostRuntime, line: &str, wrong: Wrong) -> Failed {
    let _ = eprintln!(rt; "jomavetro: {line}: {wrong}");
    Failed::Call
}

// What a line asks for; a line that is no call is named.
fn parsed<'a>(rt: &HostRuntime, line: &'a str) -> Result<Option<Request<'a>>, Failed> {
    request_of(rt.alloc(), line).map_err(|wrong| wrong_line(rt, line, wrong))
}

// The bytes of a new card: the file's, cut off or followed by zeros.
fn card_bytes(rt: &HostRuntime, source: Source) -> Result<Vec<u8>, Failed> {
    let mut bytes = load(rt, source.name)?;
    bytes.resize(source.length as usize, 0)?;
    Ok(bytes)
}

// The call that a request makes; none for a card or a dump, a refusal for a plan that cannot be made.
fn call_of(request: Request) -> Result<Option<Call>, Fault> {
    match request {
        Request::Open(page) => Ok(Some(Call::Open(page))),
        Request::Pixel(x, y) => Ok(Some(Call::Pixel(x, y))),
        Request::Window(area, length) => Ok(Some(Call::Window(area, length as usize))),
        Request::Arrow => Ok(Some(Call::Arrow)),
        Request::Begin(area, turn, endian, pieces) => {
            let plan = Plan::new(endian, pieces)?;
            let turn = turn.min(255) as u8;
            Ok(Some(Call::Begin(View { area, turn }, plan)))
        }
        Request::Carry => Ok(Some(Call::Carry)),
        Request::Rest => Ok(Some(Call::Rest)),
        Request::Switch => Ok(Some(Call::Switch)),
        Request::Keep => Ok(Some(Call::Keep)),
        Request::Scrap => Ok(Some(Call::Scrap)),
        Request::Card(_, _, _) | Request::Dump => Ok(None),
    }
}

// A call that no holder has answered yet.
fn line_of(rt: &HostRuntime, call: Call) -> Result<Line, Failed> {
    let buffer = match call {
        Call::Window(_, length) => vec![in rt.alloc(); FILL; length]?,
        _ => Vec::new(rt.alloc()),
    };
    Ok(Line {
        call,
        buffer,
        answer: Ok(Reply::Done),
    })
}

// The calls of some lines, up to the next card and at most so many.
fn gather(rt: &HostRuntime, texts: &[&str], most: usize) -> Result<Vec<Line>, Failed> {
    let mut lines: Vec<Line> = Vec::new(rt.alloc());
    for text in texts {
        let Some(request) = parsed(rt, text.trim())? else {
            continue;
        };
        if matches!(request, Request::Card(_, _, _)) || lines.len() >= most {
            return Ok(lines);
        }
        if let Ok(Some(call)) = call_of(request) {
            lines.push(line_of(rt, call)?)?;
        }
    }
    Ok(lines)
}

// Sends the calls to a new holder over the pile over some bytes; the answers stand in the lines.
// Each pile is a type of its own, for which the law is proved: a boxed card would hide which.
fn run_pile(bytes: &mut [u8], pile: Pile, lines: &mut [Line]) {
    let card = Memory::new(bytes);
    match pile {
        Pile::Plain => drop(replay(card, lines)),
        Pile::Hold => drop(replay(Hold::new(card), lines)),
        Pile::Tray(from, len) => drop(replay(Tray::new(card, from, len), lines)),
        Pile::HoldTray(from, len) => drop(replay(Hold::new(Tray::new(card, from, len)), lines)),
        Pile::TrayHold(from, len) => drop(replay(Tray::new(Hold::new(card), from, len), lines)),
        Pile::HoldHold => drop(replay(Hold::new(Hold::new(card)), lines)),
    }
}

// The hash of what the lowest card holds after the first `most` calls.
fn dumped(rt: &HostRuntime, source: Source, texts: &[&str], most: usize) -> Result<u64, Failed> {
    let mut bytes = card_bytes(rt, source)?;
    let mut lines = gather(rt, texts, most)?;
    run_pile(bytes.as_mut_slice(), source.pile, lines.as_mut_slice());
    Ok(fnv(bytes.as_slice()))
}

// A call with its answer, and the hash of a window's buffer after it.
fn print_answer(rt: &HostRuntime, text: &str, line: &Line) -> Result<(), Failed> {
    print!(rt; "{text} = ")?;
    match line.answer {
        Ok(Reply::Done) => print!(rt; "ok")?,
        Ok(Reply::Number(number)) => print!(rt; "ok {number}")?,
        Ok(Reply::Shown(size, kind)) => print!(rt;
            "ok {} {} {} {}",
            size.width,
            size.height,
            kind.photometric.number(),
            kind.bits
        )?,
        Err(fault) => print!(rt; "{fault}")?,
    }
    if let Call::Window(_, _) = line.call {
        print!(rt; " fnv {:016x}", fnv(line.buffer.as_slice()))?;
    }
    println!(rt; "")?;
    Ok(())
}

// The lines of a card with their answers, up to the next card.
fn print_answers(
    rt: &HostRuntime,
    source: Source,
    texts: &[&str],
    lines: &[Line],
) -> Result<(), Failed> {
    let mut rest = lines;
    for text in texts {
        let text = text.trim();
        let Some(request) = parsed(rt, text)? else {
            continue;
        };
        match (request, call_of(request)) {
            (Request::Card(_, _, _), _) => return Ok(()),
            (Request::Dump, _) => {
                let hash = dumped(rt, source, texts, lines.len().saturating_sub(rest.len()))?;
                println!(rt; "{text} = fnv {hash:016x}")?;
            }
            (_, Err(fault)) => println!(rt; "{text} = {fault}")?,
            (_, Ok(_)) => {
                if let [line, after @ ..] = rest {
                    print_answer(rt, text, line)?;
                    rest = after;
                }
            }
        }
    }
    Ok(())
}

// A card and the calls after it.
fn print_card(rt: &HostRuntime, source: Source, text: &str, texts: &[&str]) -> Result<(), Failed> {
    let mut bytes = card_bytes(rt, source)?;
    println!(rt; "{text} = ok")?;
    let mut lines = gather(rt, texts, usize::MAX)?;
    run_pile(bytes.as_mut_slice(), source.pile, lines.as_mut_slice());
    print_answers(rt, source, texts, lines.as_slice())
}

// Runs a script, and prints each call with its answer.
pub fn print_script(rt: &HostRuntime, script: &str) -> Result<(), Failed> {
    let texts: Vec<&str> = script.lines().collect(rt.alloc())?;
    let mut begun = false;
    for (i, text) in texts.iter().enumerate() {
        let text = text.trim();
        match parsed(rt, text)? {
            Some(Request::Card(name, length, pile)) => {
                begun = true;
                let source = Source { name, length, pile };
                print_card(rt, source, text, &texts.as_slice()[i + 1..])?;
            }
            Some(_) if !begun => {
                eprintln!(rt; "jomavetro: {text}: there is no card yet")?;
                return Err(Failed::Call);
            }
            _ => {}
        }
    }
    Ok(())
}
