// The program's work: a fresh start and a run of an image, as the lines that it prints.
#![tactic(auto)]

ghost use Rattle.std.specs.Prelude.{◌≡◌};
ghost use Rattle.image.specs.Print.{settings_of, printed, print_of};

use report::Page;
use state::{Settings, State};

// Reset 0, exception and break 32, cpuid 1, multiplier and divider present.
fn settings() -> Settings
    ensures { result ≡ settings_of }
{
    Settings {
        reset: 0,
        exception: 32,
        breaks: 32,
        cpuid: 1,
        multiplier: true,
        divider: true,
    }
}

// The lines of an image, in slices as `machine::run` takes them.
pub fn lines(mem: &mut [u8], read: &mut [u8], written: &mut [u8]) -> Page
    ensures { printed result mem.new read.new written.new ≡ print_of mem.old read.old written.old }
{
    let s = settings();
    let mut held = State::fresh(0);
    if let Err(refusal) = machine::fresh(mem, read, written, &mut held, s) {
        return report::refusal(refusal.number());
    }
    let end = machine::run(mem, read, written, &mut held, s, 0, 1000);
    let (number, steps) = machine::numbers(end);
    report::report(
        number,
        steps,
        &held,
        report::ones(read),
        report::ones(written),
    )
}
