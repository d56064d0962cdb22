// Runs the figures of the papers and prints them, one a line: a name, then numbers. The file `stdout` has them as the papers give them.
#![tactic(auto)]

use clock::{TaiMicros, UtcMicros, UtsNanos};
use refusals::Refusal;
use schedule::ParseError;

// What a reader answers: number, place, how many leaps, expiry.
fn reading(rt: &HostRuntime, name: &str, read: Result<(), ParseError>, words: &[u32; 514]) {
    let (number, place) = match read {
        Ok(()) => (0, 0),
        Err(error) => (error.refusal.number(), error.place),
    };
    let count = schedule::count_of(words);
    let expiry = schedule::expiry_of(words);
    let _ = println!(rt; "{name} {number} {place} {count} {expiry}");
}

fn text(rt: &HostRuntime, name: &str, list: &[u8]) {
    let mut words = [0u32; 514];
    let read = text::read_text(list, &mut words);
    reading(rt, name, read, &words);
}

fn nybbles(rt: &HostRuntime, name: &str, list: &[u8]) {
    let mut words = [0u32; 514];
    let read = nybbles::read_nybbles(list, &mut words);
    reading(rt, name, read, &words);
}

// The words of a text list; the blank schedule's if it does not read.
fn list_of(list: &[u8]) -> [u32; 514] {
    let mut words = [0u32; 514];
    let _ = text::read_text(list, &mut words);
    words
}

// The month of the last leap of a list that has one.
fn last_leap(rt: &HostRuntime, name: &str, words: &[u32; 514]) {
    let _ = print!(rt; "{name}");
    let n = schedule::count_of(words);
    if 0 < n {
        let month = schedule::month_at(words, n - 1);
        let _ = println!(rt; " {month}");
    }
}

// The nybbles of a list: the writer's number, then the bytes in hex.
fn written(rt: &HostRuntime, words: &[u32; 514]) {
    let mut out = [0u8; 64];
    let (number, count) = match nybbles::write_nybbles(words, &mut out) {
        Ok(count) => (0, count),
        Err(refusal) => (refusal.number(), 0),
    };
    let _ = print!(rt; " {number} ");
    for byte in out.iter().take(count) {
        let _ = print!(rt; "{byte:02x}");
    }
    let _ = println!(rt; "");
}

fn month(rt: &HostRuntime, month: u32) {
    let start = calendar::month_start(month);
    let _ = println!(rt; "month {month} {start}");
}

// A refusal: its number alone.
fn refused(rt: &HostRuntime, name: &str, refusal: Refusal) {
    let number = refusal.number();
    let _ = println!(rt; "{name} {number}");
}

fn dtai(rt: &HostRuntime, name: &str, words: &[u32; 514], day: u64) {
    match questions::dtai(words, day) {
        Ok(seconds) => {
            let _ = println!(rt; "{name} 0 {seconds}");
        }
        Err(refusal) => refused(rt, name, refusal),
    }
}

fn tai(rt: &HostRuntime, name: &str, words: &[u32; 514], day: u64, micros: u64) {
    match questions::utc_to_tai(words, day, UtcMicros(micros)) {
        Ok(TaiMicros(tai)) => {
            let _ = println!(rt; "{name} 0 {tai}");
        }
        Err(refusal) => refused(rt, name, refusal),
    }
}

fn utc(rt: &HostRuntime, name: &str, words: &[u32; 514], tai: u64) {
    match questions::tai_to_utc(words, TaiMicros(tai)) {
        Ok(instant) => {
            let day = instant.day;
            let micros = instant.micros.0;
            let _ = println!(rt; "{name} 0 {day} {micros}");
        }
        Err(refusal) => refused(rt, name, refusal),
    }
}

// What smoothed time goes back to.
fn back(words: &[u32; 514], day: u64, nanos: UtsNanos) -> u64 {
    match questions::uts_to_utc(words, day, nanos) {
        Ok(UtcMicros(micros)) => micros,
        Err(refusal) => u64::from(refusal.number()),
    }
}

// Smoothed time, and what it goes back to.
fn uts(rt: &HostRuntime, name: &str, words: &[u32; 514], day: u64, micros: u64) {
    match questions::utc_to_uts(words, day, UtcMicros(micros)) {
        Ok(uts) => {
            let nanos = uts.0;
            let back = back(words, day, uts);
            let _ = println!(rt; "{name} 0 {nanos} {back}");
        }
        Err(refusal) => refused(rt, name, refusal),
    }
}

// Smoothed time at each of these microseconds of a day.
fn uts_each(rt: &HostRuntime, name: &str, words: &[u32; 514], day: u64, micros: &[u64]) {
    for t in micros {
        uts(rt, name, words, day, *t);
    }
}

// P1 to P6: texts.
fn texts(rt: &HostRuntime) {
    text(rt, "P1", b"5?");
    text(rt, "P2", b"");
    text(rt, "P3", b"06+5?");
    text(rt, "P4", b"1000?");
    text(rt, "P5", b"999?");
    text(rt, "P6", b"5?\n");
}

// P7 to P9: nybbles.
fn codes(rt: &HostRuntime) {
    nybbles(rt, "P7", b"\xF4");
    nybbles(rt, "P8", b"\x0F");
    nybbles(rt, "P9", b"\x9D");
}

// P10 to P12: smoothed time on the day of the leap.
fn smoothed(rt: &HostRuntime) {
    let plus = list_of(b"6+5?");
    uts(rt, "P10", &plus, 41498, 86_400_000_000);
    uts_each(rt, "P11", &plus, 41498, &[85_401_000_000, 85_402_000_000]);
    let minus = list_of(b"6-5?");
    uts_each(rt, "P12", &minus, 41498, &[86_398_000_000, 86_399_000_000]);
}

// Month starts: the first and the last of the table, and those of list B's last leap and expiry.
fn months(rt: &HostRuntime) {
    for m in [0, 2400, 540, 599] {
        month(rt, m);
    }
}

fn list_a(rt: &HostRuntime) {
    let list = b"6+6+12+12+12+12+12+12+12+18+12+12+24+30+24+12+18+12+12+5?";
    text(rt, "A", list);
    let words = list_of(list);
    last_leap(rt, "A last", &words);
    dtai(rt, "A DTAI", &words, calendar::month_start(270));
    let _ = print!(rt; "A nybbles");
    written(rt, &words);
}

// By the bytecode rule 0x82 is 18 months, and 36 months is 0x85.
fn bytecodes(rt: &HostRuntime) {
    nybbles(rt, "82", b"\x82\xF4");
    nybbles(rt, "85", b"\x85\xF4");
}

fn list_b(rt: &HostRuntime) {
    let list = b"\x00\x11\x11\x11\x12\x11\x34\x31\x21\x12\x22\x9D\x56\x52\x87\xFA";
    nybbles(rt, "B", list);
    let mut words = [0u32; 514];
    let _ = nybbles::read_nybbles(list, &mut words);
    last_leap(rt, "B last", &words);
    dtai(rt, "B DTAI", &words, 57754);
    dtai(rt, "B DTAI", &words, 57753);
    dtai(rt, "B DTAI", &words, 59548);
    uts(rt, "B UTS", &words, 59548, 85_399_000_000);
    tai(rt, "B TAI", &words, 59548, 85_399_000_000);
}

// The first table of document 002, at a day that ends with an inserted second, and the start of the next day.
fn inserted(rt: &HostRuntime) {
    let words = list_of(b"6+5?");
    uts_each(
        rt,
        "inserted",
        &words,
        41498,
        &[
            85_400_000_000,
            85_401_000_000,
            85_402_000_000,
            85_403_000_000,
            85_404_000_000,
            86_399_000_000,
            86_400_000_000,
        ],
    );
    uts_each(rt, "inserted", &words, 41499, &[0, 1_000_000]);
}

// The second, at a day that ends with a deleted second.
fn deleted(rt: &HostRuntime) {
    let words = list_of(b"6-5?");
    uts_each(
        rt,
        "deleted",
        &words,
        41498,
        &[
            85_398_000_000,
            85_399_000_000,
            85_400_000_000,
            85_401_000_000,
            85_402_000_000,
            85_403_000_000,
            86_398_000_000,
        ],
    );
    uts_each(rt, "deleted", &words, 41499, &[0, 1_000_000]);
}

// TAI at the first instant of 1972, and the one instant of it; DTAI in the inserted second is the old one.
fn atomic(rt: &HostRuntime) {
    let words = list_of(b"6+5?");
    tai(rt, "1972 TAI", &words, 41317, 0);
    utc(rt, "1972 UTC", &words, 10_000_000);
    tai(rt, "leap TAI", &words, 41498, 86_400_000_000);
    tai(rt, "next TAI", &words, 41499, 0);
}

// A list without leaps that expires on a day.
fn expiring(expiry: u32) -> [u32; 514] {
    let mut words = [0u32; 514];
    words[513] = expiry;
    words
}

// 10/14: which expiry days of a list without leaps are well formed and can be written.
fn expiries(rt: &HostRuntime) {
    for expiry in [41_317, 41_318, 41_347, 41_348, 71_752, 71_753] {
        let _ = print!(rt; "until {expiry}");
        written(rt, &expiring(expiry));
    }
}

// 10/14: the last day before an expiry within a month, 41360, is known to its end.
fn last_day(rt: &HostRuntime) {
    let words = expiring(41_360);
    uts_each(
        rt,
        "within UTS",
        &words,
        41_359,
        &[86_399_999_999, 86_400_000_000],
    );
    uts(rt, "within UTS", &words, 41_360, 0);
    tai(rt, "within TAI", &words, 41_359, 86_399_999_999);
    tai(rt, "within TAI", &words, 41_359, 86_400_000_000);
    utc(rt, "within UTC", &words, 3_715_209_999_999);
    utc(rt, "within UTC", &words, 3_715_210_000_000);
}

// List N, and the longest gap.
fn others(rt: &HostRuntime) {
    text(rt, "N", b"6-5?");
    let _ = print!(rt; "999");
    written(rt, &list_of(b"999?"));
}

fn main(rt: HostRuntime) {
    texts(&rt);
    codes(&rt);
    smoothed(&rt);
    months(&rt);
    list_a(&rt);
    list_b(&rt);
    bytecodes(&rt);
    others(&rt);
    inserted(&rt);
    deleted(&rt);
    atomic(&rt);
    expiries(&rt);
    last_day(&rt);
}
