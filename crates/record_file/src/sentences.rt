// What is said of a record, on standard error.
ghost use Rattle.std.specs.Prelude.{◌≡◌};
ghost use Rattle.console_text.specs.Gathered.{emptied};
ghost use Rattle.console_text.specs.Held.{held};

use console_text::output::Output;
use elias_fano::builder::Builder;
use errors::Refusal;
use word_files::say;
use word_files::say::Failure;

// What has gathered goes out, and the next sentence begins anew.
pub fn send(out: &mut Output)
    ensures { held out.new ≡ emptied (held out.old) }
{
    say::gathered(out.gathered());
    out.clear();
}

// `burner: WHAT (refused N)`, of which nothing is left.
pub fn refused(out: &mut Output, what: &[u8], e: Refusal) -> Failure
    ensures { (result ≡ Failure.Refused) × ((held out.new).at ≡ 0) }
{
    out.text(b"burner: ");
    out.text(what);
    out.text(b" (");
    out.refusal(e);
    out.text(b")\n");
    send(out);
    Failure::Refused
}

// A record that may not be, by its count.
pub fn no_record(out: &mut Output, e: Refusal) -> Failure
    ensures { (result ≡ Failure.Refused) × ((held out.new).at ≡ 0) }
{
    refused(out, b"there is no such record", e)
}

// How many times a record holds, and the last; nothing of it is left.
pub fn holds(file: &[u8], b: Builder, out: &mut Output)
    ensures { (held out.old).at ≡ 0 → (held out.new).at ≡ 0 }
{
    if b.num_pushed == 0 {
        say::of_file(file, b" holds no start yet");
        return;
    }
    out.text(b"burner: ");
    out.text(file);
    out.text(b" holds ");
    out.number(b.num_pushed);
    out.text(if b.num_pushed == 1 {
        b" start"
    } else {
        b" starts"
    });
    out.text(b", the last at ");
    out.number(b.last);
    out.line_end();
    send(out);
}
