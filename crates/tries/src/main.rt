// Runs the rows of document 01's table that are not proved, its questions to the small day, which are, and days of the papers.
// What they should give was worked out by hand from the rules and stands in `stdout`, to which the run is held. Beside the papers' days
// stands why. All rows of the table, with every number of every buffer, are compared with the evaluators in rust/compare/tests/table.rs.
#![tactic(auto)]

use contents::LawfulDay;
use meaning::{Question, Refusal};
use std::fmt::Display;
use std::io;

// The small day of document 01: `board` 8:9, 22:23; `call` 1:20, 4:15, 7:12, 21:26, 27:28; `cancel` 2:3, 5:6.
const SMALL_DAY: &[u8] =
    b"\x03\x00\x01\x00board\x00\x00\x00\x00\x00\x00\x00\x00\x00\x00\x00L\x00\x00\x00\x02\x00\x00\x00call\x00\x00\x00\x00\x00\x00\x00\x00\x00\x00\x00\x00\x5c\x00\x00\x00\x05\x00\x00\x00cancel\x00\x00\x00\x00\x00\x00\x00\x00\x00\x00\x84\x00\x00\x00\x02\x00\x00\x00\x08\x00\x00\x00\x09\x00\x00\x00\x16\x00\x00\x00\x17\x00\x00\x00\x01\x00\x00\x00\x14\x00\x00\x00\x04\x00\x00\x00\x0f\x00\x00\x00\x07\x00\x00\x00\x0c\x00\x00\x00\x15\x00\x00\x00\x1a\x00\x00\x00\x1b\x00\x00\x00\x1c\x00\x00\x00\x02\x00\x00\x00\x03\x00\x00\x00\x05\x00\x00\x00\x06\x00\x00\x00";

// Source 000: `figure` 139:146, 295:302, 319:326; `hidden` 138:147, 209:221, 282:303; `section` 5:60, 61:194, 106:156, 157:173, 281:304.
// 139:146 lies in sections 61:194 and 106:156, of which 61:194 is the earlier; 295:302 lies in 281:304. Sections with a hidden part are
// 61:194, 106:156 and 281:304. No section lies inside a hidden part: 281:304, which the paper names, lies around 282:303.
const ARTICLE: &[u8] =
    b"\x03\x00\x01\x00figure\x00\x00\x00\x00\x00\x00\x00\x00\x00\x00L\x00\x00\x00\x03\x00\x00\x00hidden\x00\x00\x00\x00\x00\x00\x00\x00\x00\x00d\x00\x00\x00\x03\x00\x00\x00section\x00\x00\x00\x00\x00\x00\x00\x00\x00|\x00\x00\x00\x05\x00\x00\x00\x8b\x00\x00\x00\x92\x00\x00\x00'\x01\x00\x00.\x01\x00\x00?\x01\x00\x00F\x01\x00\x00\x8a\x00\x00\x00\x93\x00\x00\x00\xd1\x00\x00\x00\xdd\x00\x00\x00\x1a\x01\x00\x00/\x01\x00\x00\x05\x00\x00\x00<\x00\x00\x00=\x00\x00\x00\xc2\x00\x00\x00j\x00\x00\x00\x9c\x00\x00\x00\x9d\x00\x00\x00\xad\x00\x00\x00\x19\x01\x00\x000\x01\x00\x00";

// The same with 283:294 for 281:304: now a section lies inside 282:303, and no section lies around it. 295:302 lies in no section, and the
// sections with a hidden part are 61:194 and 106:156.
const OTHER_ARTICLE: &[u8] =
    b"\x03\x00\x01\x00figure\x00\x00\x00\x00\x00\x00\x00\x00\x00\x00L\x00\x00\x00\x03\x00\x00\x00hidden\x00\x00\x00\x00\x00\x00\x00\x00\x00\x00d\x00\x00\x00\x03\x00\x00\x00section\x00\x00\x00\x00\x00\x00\x00\x00\x00|\x00\x00\x00\x05\x00\x00\x00\x8b\x00\x00\x00\x92\x00\x00\x00'\x01\x00\x00.\x01\x00\x00?\x01\x00\x00F\x01\x00\x00\x8a\x00\x00\x00\x93\x00\x00\x00\xd1\x00\x00\x00\xdd\x00\x00\x00\x1a\x01\x00\x00/\x01\x00\x00\x05\x00\x00\x00<\x00\x00\x00=\x00\x00\x00\xc2\x00\x00\x00j\x00\x00\x00\x9c\x00\x00\x00\x9d\x00\x00\x00\xad\x00\x00\x00\x1b\x01\x00\x00&\x01\x00\x00";

// Source 003's library, its tags numbered from 1: `library` 1:38; `book` 2:13, 14:37; `title` 3:4, 15:16; `author` 5:10, 17:22, 23:28,
// 29:34. Each title lies in its book, and the first author of the second book is 17:22.
const LIBRARY: &[u8] =
    b"\x04\x00\x01\x00author\x00\x00\x00\x00\x00\x00\x00\x00\x00\x00d\x00\x00\x00\x04\x00\x00\x00book\x00\x00\x00\x00\x00\x00\x00\x00\x00\x00\x00\x00\x84\x00\x00\x00\x02\x00\x00\x00library\x00\x00\x00\x00\x00\x00\x00\x00\x00\x94\x00\x00\x00\x01\x00\x00\x00title\x00\x00\x00\x00\x00\x00\x00\x00\x00\x00\x00\x9c\x00\x00\x00\x02\x00\x00\x00\x05\x00\x00\x00\x0a\x00\x00\x00\x11\x00\x00\x00\x16\x00\x00\x00\x17\x00\x00\x00\x1c\x00\x00\x00\x1d\x00\x00\x00\x22\x00\x00\x00\x02\x00\x00\x00\x0d\x00\x00\x00\x0e\x00\x00\x00%\x00\x00\x00\x01\x00\x00\x00&\x00\x00\x00\x03\x00\x00\x00\x04\x00\x00\x00\x0f\x00\x00\x00\x10\x00\x00\x00";

// The first n items, or all if there are no more.
fn beginning<T>(items: &[T], n: usize) -> &[T] {
    items.get(..n).unwrap_or(items)
}

// Writes each number after a blank.
fn numbers<T: Display>(rt: &impl Print, numbers: &[T]) -> io::Result<()> {
    for number in numbers {
        print!(rt; " {number}")?;
    }
    Ok(())
}

// The number of a refusal, or 0 where there is none.
fn number<T: Drop>(outcome: Result<T, Refusal>) -> u32 {
    outcome.err().map_or(0, u32::from)
}

// Writes a question with its positions, its evidence rows one after the other, whether more remain, the next place, and the step whose name is
// unknown. Each of its steps begins with two slashes.
fn ask(rt: &impl Print, index: &[u8], text: &str, place: u32) -> io::Result<()> {
    print!(rt; "{text}:")?;
    let text = text.as_bytes();
    let mut out = [0u32; 24];
    let page = match answer::answer(index, text, place, &mut out) {
        Ok(page) => page,
        Err(refusal) => return println!(rt; " refused {refusal}"),
    };
    numbers(rt, beginning(&out, page.rows))?;
    print!(rt; " evidence")?;
    let steps = text.iter().filter(|byte| **byte == b'/').count() / 2;
    if let Ok(shown) = answer::evidence(index, text, place, &mut out) {
        numbers(rt, beginning(&out, shown.rows.saturating_mul(steps)))?;
    }
    if page.more {
        print!(rt; " more")?;
    }
    print!(rt; " next {}", page.next)?;
    if let Some(step) = page.unknown {
        print!(rt; " unknown {step}")?;
    }
    println!(rt; "")
}

// Asks each of the questions from the first place on.
fn ask_each(rt: &impl Print, index: &[u8], questions: &[&str]) -> io::Result<()> {
    for text in questions {
        ask(rt, index, text, 0)?;
    }
    Ok(())
}

// Writes the number that the check gives.
fn check(rt: &impl Print, index: &[u8]) -> io::Result<()> {
    println!(rt; "check {}", number(day::check(index)))
}

// The bytes of a name's list in a lawful index; of any other index none.
fn labels_of<'a>(index: &'a [u8], name: &str) -> &'a [u8] {
    match day::check(index) {
        Ok(()) => LawfulDay { index }.lookup(name.as_bytes()),
        Err(_) => &[],
    }
}

// Writes a name with the bytes of its list.
fn look_up(rt: &impl Print, index: &[u8], name: &str) -> io::Result<()> {
    print!(rt; "{name} has")?;
    numbers(rt, labels_of(index, name))?;
    println!(rt; "")
}

// Writes the number that reading a question gives.
fn read(rt: &impl Print, text: &[u8]) -> io::Result<()> {
    println!(rt; "read {}", number(question::read(text)))
}

// Writes the number that a call gives.
fn refusal(rt: &impl Print, index: &[u8], text: &[u8]) -> io::Result<()> {
    let mut out = [0u32; 24];
    println!(rt;
        "refused {}",
        number(answer::answer(index, text, 0, &mut out))
    )
}

// The table's questions to the small day, and places at which no record is left.
fn questions_to(rt: &impl Print, day: &[u8]) -> io::Result<()> {
    ask_each(
        rt,
        day,
        &[
            "//call[//cancel]//board",
            "//call[//board]",
            "//call[//cancel]",
            "//call//call//call",
            "//call//cancel//board",
            "//call[//cancel][//cancel]",
            "//call[//call[//cancel]]//board",
            "//lobby",
            // a name in a bracket that no row has
            "//call[//cancle]",
        ],
    )?;
    // from place 9 on there is none, and the next place is the number of calls
    ask(rt, day, "//call[//board]", 9)?;
    // a place of 4,294,967,295
    ask(rt, day, "//call", u32::MAX)
}

// The labels of a name, byte by byte; of a name without a row, and of the beginning of one, none.
fn names_of(rt: &impl Print, day: &[u8]) -> io::Result<()> {
    for name in ["board", "cancel", "can", "lobby"] {
        look_up(rt, day, name)?;
    }
    Ok(())
}

// Calls that are refused, and one of an index without a tag.
fn refusals_of(rt: &impl Print, day: &[u8]) -> io::Result<()> {
    // 1,025 bytes of anything
    refusal(rt, day, &[b'/'; Question::MOST_BYTES + 1])?;
    // a broken index and a broken question: the index's number
    refusal(rt, b"\x00\x00\x02\x00", b"/call")?;
    ask(rt, b"\x00\x00\x01\x00", "//call", 0)
}

// Questions to the papers' other days.
fn other_days(rt: &impl Print) -> io::Result<()> {
    let article = [
        "//section//figure",
        "//section[//hidden]",
        "//hidden[//section]//figure",
    ];
    ask_each(rt, ARTICLE, &article)?;
    ask_each(rt, OTHER_ARTICLE, &article)?;
    ask_each(
        rt,
        LIBRARY,
        &["//book[//author]//title", "//library//author"],
    )
}

// Indexes that are refused, and that are not.
fn indexes(rt: &impl Print) -> io::Result<()> {
    check(rt, b"\x00\x00\x02\x00")?;
    check(rt, b"\x01\x00\x01\x00")?;
    check(rt, b"\x00\x00\x01")?;
    check(rt, beginning(&nested(64), 540))?;
    check(rt, &nested(65))
}

// An index with the one list `call`, of 65 labels of which each but the first lies inside the one before, and in its row the number given; the
// first 540 bytes are the index with 64 of them.
fn nested(many: u8) -> [u8; 548] {
    let mut out = [0u8; 548];
    out[0] = 1;
    out[2] = 1;
    out[4..8].copy_from_slice(b"call");
    out[20] = 28;
    out[24] = many;
    for i in 0..65u8 {
        let at = 28 + 8 * usize::from(i);
        out[at] = 1 + i;
        out[at + 4] = 255 - i;
    }
    out
}

// Questions that do not follow the notation, and that do.
fn questions(rt: &impl Print) -> io::Result<()> {
    read(rt, b"")?;
    read(rt, b"/call")?;
    read(rt, b"//call[]")?;
    read(rt, b"//call]")?;
    read(rt, b"//1a")?;
    // names of 16 and of 17 characters
    read(rt, b"//abcdefghijklmnop")?;
    read(rt, b"//abcdefghijklmnopq")?;
    // 32 steps, and 33
    read(
        rt,
        b"//a//a//a//a//a//a//a//a//a//a//a//a//a//a//a//a//a//a//a//a//a//a//a//a//a//a//a//a//a//a//a//a",
    )?;
    read(
        rt,
        b"//a//a//a//a//a//a//a//a//a//a//a//a//a//a//a//a//a//a//a//a//a//a//a//a//a//a//a//a//a//a//a//a//a",
    )?;
    // 33 steps and then a break
    read(
        rt,
        b"//a//a//a//a//a//a//a//a//a//a//a//a//a//a//a//a//a//a//a//a//a//a//a//a//a//a//a//a//a//a//a//a//a[",
    )?;
    // 8 deep, and 9
    read(rt, b"//a[//a[//a[//a[//a[//a[//a[//a[//a]]]]]]]]")?;
    read(rt, b"//a[//a[//a[//a[//a[//a[//a[//a[//a[//a]]]]]]]]]")?;
    // 1,024 bytes, and 1,025
    read(rt, &[b'/'; Question::MOST_BYTES])?;
    read(rt, &[b'/'; Question::MOST_BYTES + 1])?;
    // bytes over 127, zero bytes, a line feed, and something after a bracket
    read(rt, b"//\xe9")?;
    read(rt, b"//a\xff")?;
    read(rt, b"\x00")?;
    read(rt, b"//a\x00")?;
    read(rt, b"//call\n")?;
    read(rt, b"//a[//b]c")?;
    read(rt, b"//_-.9[//B]//c")
}

fn main(rt: HostRuntime) -> io::Result<()> {
    questions_to(&rt, SMALL_DAY)?;
    names_of(&rt, SMALL_DAY)?;
    refusals_of(&rt, SMALL_DAY)?;
    other_days(&rt)?;
    indexes(&rt)?;
    questions(&rt)
}
