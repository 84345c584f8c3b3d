ghost use Rattle.fak_text.specs.Names.{IsRefusal};

use crate::inputs::{holds_at, is_made};
use crate::spread::add_spread;
use LineMark::{Queue, Room};
use fak_core::{CoreFault, CoreMove, Line, LineMark};
use fak_model::{Kind, RoomKind};
use fak_text::{
    Note, TextFault, append_journal, append_line, append_name, append_refusal, journal_text,
    line_text, name_text, refused_text,
};
use std::alloc::{AllocError, Global};
use std::process::Abort;

/// Checks that a text was created, and is this one.
fn is_text(rt: &impl Abort, made: Result<Vec<u8>, TextFault>, want: &str) {
    let is_so = match made {
        Ok(text) => text.as_slice() == want.as_bytes(),
        Err(_) => false,
    };
    holds_at(rt, is_so, want);
}

/// Checks that a text was created, and is the one that was written for it.
fn is_text_as(rt: &impl Abort, want: Result<String, AllocError>, made: Result<Vec<u8>, TextFault>) {
    let want = want.expect(rt, "memory");
    is_text(rt, made, &want);
}

/// Checks that the lines of a seat have the texts next to them.
fn have_texts(
    rt: &(impl Abort + AllocGlobal),
    seat: u64,
    rows: &[(CoreMove, i128, Option<LineMark>, &str)],
) {
    for &(step, found, mark, want) in rows {
        let line = Line {
            seat,
            step,
            found,
            mark,
        };
        is_text(rt, line_text(rt.alloc(), &line), want);
    }
}

#[test]
fn lines_of_rooms(rt: HostRuntime) {
    const ROWS: &[(CoreMove, i128, Option<LineMark>, &str)] = &[
        (CoreMove::Test, 0, None, "1 test 0 -"),
        (
            CoreMove::Test,
            3,
            Some(Room(RoomKind::No(3))),
            "1 test 3 no 3",
        ),
        (
            CoreMove::Add,
            0,
            Some(Room(RoomKind::Up(1024))),
            "1 add 0 up 1024",
        ),
        (
            CoreMove::Add,
            1,
            Some(Room(RoomKind::Over(1))),
            "1 add 1 over 1",
        ),
        (
            CoreMove::Back,
            2,
            Some(Room(RoomKind::Back(1))),
            "1 back 2 back 1",
        ),
        (
            CoreMove::Release,
            5,
            Some(Room(RoomKind::Release(3))),
            "1 release 5 release 3",
        ),
    ];
    have_texts(&rt, 1, ROWS);
}

#[test]
fn lines_of_queues(rt: HostRuntime) {
    const ROWS: &[(CoreMove, i128, Option<LineMark>, &str)] = &[
        (CoreMove::TestUp, 0, None, "2 test-up 0 -"),
        (
            CoreMove::TestUp,
            1,
            Some(Queue(Kind::NoRoom)),
            "2 test-up 1 no-room",
        ),
        (
            CoreMove::TestUp,
            1,
            Some(Queue(Kind::Closed)),
            "2 test-up 1 closed",
        ),
        (
            CoreMove::AddUp,
            0,
            Some(Queue(Kind::ClaimIn)),
            "2 add-up 0 claim-in",
        ),
        (
            CoreMove::AddUp,
            1,
            Some(Queue(Kind::OverIn)),
            "2 add-up 1 over-in",
        ),
        (
            CoreMove::AddUp,
            0,
            Some(Queue(Kind::LateIn)),
            "2 add-up 0 late-in",
        ),
        (
            CoreMove::BackUp,
            1,
            Some(Queue(Kind::BackIn)),
            "2 back-up 1 back-in",
        ),
        (
            CoreMove::TicketIn,
            0,
            Some(Queue(Kind::Put(7))),
            "2 ticket-in 0 put 7",
        ),
        (CoreMove::TurnIn, 0, None, "2 turn-in 0 -"),
        (
            CoreMove::StoreItem,
            18446744073709551615,
            None,
            "2 store-item 18446744073709551615 -",
        ),
        (
            CoreMove::SetFull,
            1,
            Some(Queue(Kind::Fill(0))),
            "2 set-full 1 fill 0",
        ),
        (
            CoreMove::EndIn,
            0,
            Some(Queue(Kind::EndIn)),
            "2 end-in 0 end-in",
        ),
        (
            CoreMove::TestLow,
            -1,
            Some(Queue(Kind::NoItem)),
            "2 test-low -1 no-item",
        ),
        (
            CoreMove::SubLow,
            1,
            Some(Queue(Kind::ClaimOut)),
            "2 sub-low 1 claim-out",
        ),
        (
            CoreMove::SubLow,
            0,
            Some(Queue(Kind::OverOut)),
            "2 sub-low 0 over-out",
        ),
        (
            CoreMove::BackLow,
            -1,
            Some(Queue(Kind::BackOut)),
            "2 back-low -1 back-out",
        ),
        (
            CoreMove::TicketOut,
            0,
            Some(Queue(Kind::Got(10))),
            "2 ticket-out 0 got 10",
        ),
        (CoreMove::TurnOut, 1, None, "2 turn-out 1 -"),
        (CoreMove::LoadItem, 7, None, "2 load-item 7 -"),
        (
            CoreMove::SetFree,
            2,
            Some(Queue(Kind::Take(1))),
            "2 set-free 2 take 1",
        ),
        (
            CoreMove::EndOut,
            3,
            Some(Queue(Kind::EndOut)),
            "2 end-out 3 end-out",
        ),
        (
            CoreMove::Shut,
            0,
            Some(Queue(Kind::Close)),
            "2 shut 0 close",
        ),
    ];
    have_texts(&rt, 2, ROWS);
}

/// Checks that a refusal has this text.
fn is_refused_as(rt: &(impl Abort + AllocGlobal), seat: u64, fault: &CoreFault, want: &str)
    requires { IsRefusal fault.now }
{
    is_text(rt, refused_text(rt.alloc(), seat, fault), want);
}

#[test]
fn refusals(rt: HostRuntime) {
    is_refused_as(&rt, 2, &CoreFault::NoSuchSeat, "2 refused no-such-seat");
    is_refused_as(&rt, 1, &CoreFault::MidCall, "1 refused mid-call");
    is_refused_as(&rt, 1, &CoreFault::IdleSeat, "1 refused idle-seat");
    is_refused_as(
        &rt,
        18446744073709551615,
        &CoreFault::NotHeld,
        "18446744073709551615 refused not-held",
    );
}

const JOURNAL: &str = "  say ping pong
  say 
  yield
  down 0
  up 1
  open 7 entry 0
  open 4294967296 no-entry
  close 7 entry 15
  close 8 none
  stat 7 uses 1
  stat 8 none
  spawn 3.0.10
  spawn no-birth
  spawn no-slot
  shutdown
";

/// The journal of process 3.0 with a note of each kind, the first of them saying this.
fn journal_of_each_kind(alloc: Global, said: String) -> Result<Vec<u8>, TextFault> {
    let notes = [
        Note::Say(said),
        Note::Say(String::new(alloc)),
        Note::Yield,
        Note::Down(0),
        Note::Up(1),
        Note::OpenFile(7, Some(0)),
        Note::OpenFile(4294967296, None),
        Note::CloseFile(7, Some(15)),
        Note::CloseFile(8, None),
        Note::Stat(7, Some(1)),
        Note::Stat(8, None),
        Note::Spawned(10),
        Note::NoBirth,
        Note::NoSlot,
        Note::Shutdown,
    ];
    journal_text(alloc, &[3, 0], &notes)
}

#[test]
fn a_journal_of_each_kind_of_note(rt: HostRuntime) {
    is_text(&rt, journal_text(rt.alloc(), &[0], &[]), "");
    let said = String::from_str(rt.alloc(), "ping pong").expect(&rt, "memory");
    is_text(&rt, journal_of_each_kind(rt.alloc(), said), JOURNAL);
}

/// Checks that a process of these numbers is named so.
fn is_named(rt: &(impl Abort + AllocGlobal), name: &[u64], want: &str) {
    is_made(rt, name_text(rt.alloc(), name), want);
}

#[test]
fn names(rt: HostRuntime) {
    is_named(&rt, &[], "");
    is_named(&rt, &[0], "0");
    is_named(&rt, &[12, 0, 1000], "12.0.1000");
}

/// Checks that the name is written so, with this number added to both.
fn is_named_with(
    rt: &(impl Abort + AllocGlobal),
    name: &mut Vec<u64>,
    text: &mut String,
    number: u64,
) {
    let dot = if name.is_empty() { "" } else { "." };
    name.push(number).expect(rt, "memory");
    write!(text, "{dot}{number}").expect(rt, "memory");
    is_named(rt, name, text);
}

#[test]
fn names_of_up_to_1001_numbers(rt: HostRuntime) {
    let mut name = Vec::new(rt.alloc());
    let mut text = String::new(rt.alloc());
    is_named(&rt, &name, &text);
    for number in 0..1_001u64 {
        is_named_with(&rt, &mut name, &mut text, number);
    }
}

/// Checks that the journal of process 3.0 is written so, with two notes of this number added.
fn is_journal_with(
    rt: &(impl Abort + AllocGlobal),
    notes: &mut Vec<Note>,
    text: &mut String,
    number: u64,
) {
    notes.push(Note::Up(number)).expect(rt, "memory");
    notes.push(Note::Spawned(number)).expect(rt, "memory");
    write!(text, "  up {number}\n  spawn 3.0.{number}\n").expect(rt, "memory");
    is_text(rt, journal_text(rt.alloc(), &[3, 0], notes), text);
}

#[test]
fn journals_of_up_to_1000_notes(rt: HostRuntime) {
    let mut notes = Vec::new(rt.alloc());
    let mut text = String::new(rt.alloc());
    for number in 0..500u64 {
        is_journal_with(&rt, &mut notes, &mut text, number);
    }
}

/// Checks that a line with this number of a seat and of a mark, and with what it found, is written so.
fn is_line_of(rt: &(impl Abort + AllocGlobal), number: u64, found: i128) {
    let line = Line {
        seat: number,
        step: CoreMove::TicketIn,
        found,
        mark: Some(Queue(Kind::Put(number))),
    };
    let want = format!(in rt.alloc(); "{number} ticket-in {found} put {number}");
    is_text_as(rt, want, line_text(rt.alloc(), &line));
}

/// The journal with this number wherever it has one.
fn journal_of(alloc: Global, n: u64) -> Result<Vec<u8>, TextFault> {
    let notes = [
        Note::Down(n),
        Note::Up(n),
        Note::OpenFile(n, Some(n)),
        Note::CloseFile(n, Some(n)),
        Note::Stat(n, Some(n)),
        Note::Spawned(n),
    ];
    journal_text(alloc, &[n], &notes)
}

/// What is written before, between and after the numbers of that journal.
const PARTS_OF_JOURNAL: &[&str] = &[
    "  down ",
    "\n  up ",
    "\n  open ",
    " entry ",
    "\n  close ",
    " entry ",
    "\n  stat ",
    " uses ",
    "\n  spawn ",
    ".",
    "\n",
];

/// The text of the journal with this number.
fn text_of_journal(alloc: Global, n: u64) -> Result<String, AllocError> {
    PARTS_OF_JOURNAL.join(alloc, &n.to_string(alloc)?)
}

/// Checks that a journal with this number wherever it has one is written so.
fn is_journal_of(rt: &(impl Abort + AllocGlobal), n: u64) {
    is_text_as(
        rt,
        text_of_journal(rt.alloc(), n),
        journal_of(rt.alloc(), n),
    );
}

/// Checks that lines and a journal with this number are written so.
fn is_written_with(rt: &(impl Abort + AllocGlobal), number: u64) {
    let found = number as i128;
    is_line_of(rt, number, found);
    is_line_of(rt, number, -found);
    is_journal_of(rt, number);
}

#[test]
fn lines_and_journals_of_numbers_of_each_length(rt: HostRuntime) {
    let mut numbers = Vec::new(rt.alloc());
    add_spread(&mut numbers).expect(&rt, "memory");
    for &number in &numbers {
        is_written_with(&rt, number);
    }
}

const OVER: &Line = &Line {
    seat: 63,
    step: CoreMove::SubLow,
    found: -4096,
    mark: Some(Queue(Kind::OverOut)),
};

/// Appends one of each, and a newline after each but the journal.
fn append_each(rt: &impl Abort, text: &mut String) {
    append_line(text, OVER).expect(rt, "memory");
    text.push_str("\n").expect(rt, "memory");
    append_refusal(text, 100, &CoreFault::NotHeld).expect(rt, "memory");
    text.push_str("\n").expect(rt, "memory");
    append_name(text, &[3, 0, 1000]).expect(rt, "memory");
    text.push_str("\n").expect(rt, "memory");
    append_journal(text, &[3, 0], &[Note::Spawned(7), Note::Yield]).expect(rt, "memory");
}

const APPENDED: &str =
    "begun\n63 sub-low -4096 over-out\n100 refused not-held\n3.0.1000\n  spawn 3.0.7\n  yield\n";

#[test]
fn texts_are_appended(rt: HostRuntime) {
    let mut text = String::from_str(rt.alloc(), "begun\n").expect(&rt, "memory");
    append_each(&rt, &mut text);
    holds_at(&rt, text.as_str() == APPENDED, APPENDED);
}
