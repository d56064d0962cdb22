// Asks for the month of every day from MJD 41310 to 114370, each once, and prints a line for each stretch of days with one answer: its first day,
// its last day, and the month, or `!` and the number of the refusal. The last line says how many days were asked about.
#![tactic(auto)]

use refusals::Refusal;

const FROM: u64 = 41_310;

const TO: u64 = 114_370;

fn print_stretch(rt: &HostRuntime, first: u64, last: u64, answer: Result<u16, Refusal>) {
    let _ = match answer {
        Ok(month) => println!(rt; "{first} {last} {month}"),
        Err(refusal) => {
            let number = refusal.number();
            println!(rt; "{first} {last} !{number}")
        }
    };
}

fn main(rt: HostRuntime) {
    let mut first = FROM;
    let mut answer = calendar::month_of(FROM);
    let mut asked: u64 = 1;
    for day in FROM + 1..=TO {
        let next = calendar::month_of(day);
        asked += 1;
        if next != answer {
            print_stretch(&rt, first, day - 1, answer);
            first = day;
            answer = next;
        }
    }
    print_stretch(&rt, first, TO, answer);
    let _ = println!(rt; "{asked} days");
}
