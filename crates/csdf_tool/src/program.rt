//! The program, from its words to its exit status.

ghost use Rattle.std.specs.Prelude.{◌≡◌, ◌≢◌, ◌≤◌, ◌⊎◌, map, string_bytes, ℕ, List, Option, [], Some, None, true, false, Ok, Err, IfErr, OnErr, OnOk};
ghost use Rattle.std.specs.Io.KnownBytes.{Appends};
ghost use Rattle.clap.specs.Words.{fault_of, kind_of};
ghost use Rattle.csdf_words.specs.CommandLine.{program, asked_view, form_asked, form_of, words_ask, Asked};
ghost use Rattle.csdf_tool.specs.Carried.{IsCarriedOut, IsCauseOf, IsStreamedOut, asks_files, asks_stream, flows_asked, flows_out, reads_input};
ghost use Rattle.csdf_tool.specs.Ends.{AreTaken, Ended, EndsAs, EndsBy, EndsFor, EndsForOneOf, EndsInForm, EndsInUse, EndsLacking, EndsTelling, EndsTold, EndsUnasked, EndsUnread, ending, told_in};
ghost use Rattle.csdf_flows.specs.Flows.{standard, through};
ghost use Rattle.csdf_disk.specs.Acts.{devices, marks};

use crate::answer_files::{ask_file, play_file};
use crate::explain_files::explain_files;
use clap::Error;
use clap::error::ErrorKind;
use csdf_answers::{DeviceName, Form, ToolFault, fault_line, memory_line};
use csdf_bytes::{Intake, Outlet, write_bytes};
use csdf_disk::Disk;
use csdf_flows::stream_files;
use csdf_run_files::run_files;
use csdf_told::{refuse_lengths, refuse_out, refuse_room, refuse_workers};
use csdf_words::{Request, Unread, form_of, request_of};
use std::alloc::Global;
use std::fmt;
use std::fmt::Write;
use std::sync::Wait;
use std::thread::Threads;

/// Carries a request out. What is told on standard error beside a fault is told here.
fn carry_out<
    R: AllocGlobal + Eprint + Threads + Wait + Sync,
    D: Disk,
    I: Intake,
    O: Outlet,
    E: Outlet,
>(
    rt: &R,
    disk: &mut D,
    request: Request<'_>,
    reader: &mut I,
    out: &mut O,
    err: &mut E,
) -> Result<(), ToolFault>
    ensures unwritten { flows_out (asked_view request.entry) ≡ false → IfErr result (λ fault. fault ≢ ToolFault.Device DeviceName.Output → out.new ≡ out.old) }
    ensures silent { OnErr result (err.new ≡ err.old) }
    ensures unspoken { flows_out (asked_view request.entry) ≡ false → err.new ≡ err.old }
    ensures failed { result ≡ Err (ToolFault.Device DeviceName.Output) → O.failed out.new ≡ true }
    ensures carried { OnOk result (IsCarriedOut (asked_view request.entry) (devices (I.left reader.old) (D.acts disk.old) (D.acts disk.new))
        (O.written out.old) (O.written out.new)) }
    ensures streamed { OnOk result (IsStreamedOut (asked_view request.entry) (devices (I.left reader.old) (D.acts disk.old) (D.acts disk.new))
        (standard (I.left reader.old) (I.left reader.new) (O.written out.old) (O.written out.new) (E.written err.old) (E.written err.new) (E.failed err.new))) }
    ensures caused { IfErr result (IsCauseOf (asked_view request.entry) (devices (I.left reader.old) (D.acts disk.old) (D.acts disk.new))
        (through (I.left reader.old) (I.left reader.new) (O.written out.old) (O.written out.new)) (marks (I.failed reader.new) (O.failed out.new))) }
    ensures input { reads_input (asked_view request.entry) ≡ true → I.failed reader.new ≡ true → result ≡ Err (ToolFault.Device DeviceName.Input) }
{
    let alloc = rt.alloc();
    match request {
        Request::Input => play_file(alloc, disk, "-", reader, out),
        Request::Moves(path) => play_file(alloc, disk, path, reader, out),
        Request::Ask(inquiry) => ask_file(alloc, disk, inquiry, reader, out),
        Request::Explain(path, folder) => explain_files(alloc, disk, path, folder, reader, out),
        Request::Run(order) => run_files(rt, disk, order, reader, out),
        Request::Stream(order) => stream_files(rt, disk, order, reader, out, err),
    }
}

/// A device as a place for text.
#[derive(Drop)]
struct Printer<'a, O>(&'a mut O);

impl<O: Outlet> fmt::Write for Printer<'_, O> {
    ghost write_str_gives = { λ old text new. (new.0.ghost_name ≡ old.0.ghost_name) × Appends (O.written old.0.now) (O.written new.0.now) text };

    fn write_str(&mut self, text: &str) -> fmt::Result {
        write_bytes(self.0, text.as_bytes()).map_err(|_| fmt::Error)
    }
}

/// Writes a line that tells a fault. Where the device fails, that is all that comes of it.
fn put_line<E: Outlet>(line: &[u8], err: &mut E)
    ensures { Appends (E.written err.old) (E.written err.new) line.now ⊎ (E.failed err.new ≡ true) }
{
    let _ = write_bytes(err, line);
}

/// The form in which a fault is told: one of the command line in words.
fn told_in(form: Form, fault: &ToolFault) -> Form
    ensures { result ≡ told_in form fault.now }
{
    match fault {
        ToolFault::InUse(_) | ToolFault::Lacks(_) => Form::Text,
        _ => form,
    }
}

/// Tells a fault in a form on a device, and answers its exit status.
///
/// Where there is no memory for its line, want of memory is told in its place. A failure of the
/// device changes no status.
fn tell<E: Outlet>(alloc: Global, form: Form, fault: &ToolFault, err: &mut E) -> u8
    ensures { EndsBy form fault.now result (E.written err.old) (E.written err.new) (E.failed err.new) }
{
    let told = told_in(form, fault);
    let Ok(line) = fault_line(alloc, told, fault) else {
        put_line(memory_line(form).as_bytes(), err);
        return 3;
    };
    put_line(&line, err);
    fault.status()
}

/// The exit status of an answer, whose fault is told on standard error in a form.
fn status_after<E: Outlet>(
    alloc: Global,
    form: Form,
    answer: Result<(), ToolFault>,
    err: &mut E,
) -> u8
    ensures silent { OnOk answer (err.new ≡ err.old) }
    ensures ends { Ended form answer result (E.written err.old) (E.written err.new) (E.failed err.new) }
{
    match answer {
        Ok(()) => 0,
        Err(fault) => tell(alloc, form, &fault, err),
    }
}

/// Prints the help or the version that the words ask for.
fn print_help<O: Outlet>(alloc: Global, help: &Error, out: &mut O) -> Result<(), ToolFault>
    ensures unwritten { IfErr result (λ fault. fault ≢ ToolFault.Device DeviceName.Output → out.new ≡ out.old) }
    ensures failed { result ≡ Err (ToolFault.Device DeviceName.Output) → O.failed out.new ≡ true }
    ensures caused { IfErr result (λ fault. (fault ≡ ToolFault.Memory) ⊎ (fault ≡ ToolFault.Device DeviceName.Output)) }
{
    let text = format!(in alloc; "{help}")?;
    match write_bytes(out, text.as_bytes()) {
        Ok(()) => Ok(()),
        Err(_) => Err(ToolFault::Device(DeviceName::Output)),
    }
}

/// The exit status where the parser refuses the words.
fn status_of_error<O: Outlet, E: Outlet>(
    alloc: Global,
    error: &Error,
    out: &mut O,
    err: &mut E,
) -> u8
    ensures refused { (result ≡ 1) ⊎ (result ≡ 2) → out.new ≡ out.old }
    ensures device { result ≡ 3 → (out.new ≡ out.old) ⊎ (O.failed out.new ≡ true) }
    ensures answered { result ≡ 0 → err.new ≡ err.old }
    ensures ends { EndsFor (kind_of error.now) (ending result (E.written err.old) (E.written err.new) (E.failed err.new) (O.failed out.new)) }
    ensures lined { result ≡ 3 → (fault : ToolFault) × EndsAs Form.Text fault result (E.written err.old) (E.written err.new) (E.failed err.new) }
{
    match error.kind() {
        ErrorKind::DisplayHelp | ErrorKind::DisplayVersion => {
            status_after(alloc, Form::Text, print_help(alloc, error, out), err)
        }
        ErrorKind::OutOfMemory => tell(alloc, Form::Text, &ToolFault::Memory, err),
        _ => {
            let _ = write!(Printer(err), "{error}");
            2
        }
    }
}

/// The exit status where the words are no request.
fn status_of_words<O: Outlet, E: Outlet>(
    alloc: Global,
    unread: &Unread<'_>,
    out: &mut O,
    err: &mut E,
) -> u8
    ensures refused { (result ≡ 1) ⊎ (result ≡ 2) → out.new ≡ out.old }
    ensures device { result ≡ 3 → (out.new ≡ out.old) ⊎ (O.failed out.new ≡ true) }
    ensures answered { result ≡ 0 → err.new ≡ err.old }
    ensures ends { EndsUnread unread.now (ending result (E.written err.old) (E.written err.new) (E.failed err.new) (O.failed out.new)) }
    ensures lined { result ≡ 3 → (fault : ToolFault) × EndsAs Form.Text fault result (E.written err.old) (E.written err.new) (E.failed err.new) }
{
    match unread {
        Unread::Parse(error) => status_of_error(alloc, error, out, err),
        Unread::Room(text) => refuse_room(text, err),
        Unread::Workers(text) => refuse_workers(text, err),
        Unread::Lengths => refuse_lengths(err),
        Unread::OutAlone => refuse_out(err),
    }
}

/// Runs the program on the words of its command line, without its own name, and answers the exit
/// status: 0 where it is answered, 1 where an input is refused, 2 where the words are or a file that
/// they name is in use, 3 where a device or memory failed.
///
/// A fault of status 1 or 3 is told on `err` by its text and a newline, or where the words ask for
/// JSON by its object, and nothing is written to `out` but for a fault of `out` itself. A stream from
/// `reader` to `out` writes as it goes, and its report goes to `err`. A failure of `err` changes no status.
pub fn run_words<
    R: AllocGlobal + Eprint + Threads + Wait + Sync,
    D: Disk,
    I: Intake,
    O: Outlet,
    E: Outlet,
>(rt: &R, disk: &mut D, words: &[String], reader: &mut I, out: &mut O, err: &mut E) -> u8
    ensures known { result ≤ 3 }
    ensures refused { flows_asked (words_ask (map string_bytes words.now)) ≡ false → (result ≡ 1) ⊎ (result ≡ 2) → out.new ≡ out.old }
    ensures device { flows_asked (words_ask (map string_bytes words.now)) ≡ false → result ≡ 3 → (out.new ≡ out.old) ⊎ (O.failed out.new ≡ true) }
    ensures answered { flows_asked (words_ask (map string_bytes words.now)) ≡ false → result ≡ 0 → err.new ≡ err.old }
    ensures lined { (result ≡ 1) ⊎ (result ≡ 3) → (fault : ToolFault) × EndsInForm (form_asked (words_ask (map string_bytes words.now))) fault result
        (E.written err.old) (E.written err.new) (E.failed err.new) }
    ensures taken { (asks : Asked) → AreTaken (map string_bytes words.now) → words_ask (map string_bytes words.now) ≡ Some asks → result ≡ 2
        → EndsInUse (form_of asks) result (E.written err.old) (E.written err.new) (E.failed err.new)
        ⊎ ((asks_stream asks ≡ true) × EndsLacking (form_of asks) result (E.written err.old) (E.written err.new) (E.failed err.new)) }
    ensures run { (asks : Asked) → AreTaken (map string_bytes words.now) → words_ask (map string_bytes words.now) ≡ Some asks → result ≡ 2
        → asks_files asks ≡ true }
    ensures nothing { AreTaken (map string_bytes words.now) → words_ask (map string_bytes words.now) ≡ None
        → (result ≡ 2) ⊎ EndsTold (ending result (E.written err.old) (E.written err.new) (E.failed err.new) (O.failed out.new)) ToolFault.Memory }
    ensures reason { words_ask (map string_bytes words.now) ≡ None → EndsUnasked (map string_bytes words.now)
        (ending result (E.written err.old) (E.written err.new) (E.failed err.new) (O.failed out.new)) }
    ensures unread { fault_of program (map string_bytes words.now) ≢ [] → EndsForOneOf (fault_of program (map string_bytes words.now))
        (ending result (E.written err.old) (E.written err.new) (E.failed err.new) (O.failed out.new)) }
    ensures untouched { (fault_of program (map string_bytes words.now) ≢ []) ⊎ (words_ask (map string_bytes words.now) ≡ None)
        → (disk.new ≡ disk.old) × (reader.new ≡ reader.old) }
    ensures carried { (asks : Asked) → AreTaken (map string_bytes words.now) → words_ask (map string_bytes words.now) ≡ Some asks → result ≡ 0
        → IsCarriedOut asks (devices (I.left reader.old) (D.acts disk.old) (D.acts disk.new)) (O.written out.old) (O.written out.new) }
    ensures streamed { (asks : Asked) → AreTaken (map string_bytes words.now) → words_ask (map string_bytes words.now) ≡ Some asks → result ≡ 0
        → IsStreamedOut asks (devices (I.left reader.old) (D.acts disk.old) (D.acts disk.new))
        (standard (I.left reader.old) (I.left reader.new) (O.written out.old) (O.written out.new) (E.written err.old) (E.written err.new) (E.failed err.new)) }
    ensures caused { (asks : Asked) → AreTaken (map string_bytes words.now) → words_ask (map string_bytes words.now) ≡ Some asks → result ≢ 0
        → (fault : ToolFault) × IsCauseOf asks (devices (I.left reader.old) (D.acts disk.old) (D.acts disk.new))
        (through (I.left reader.old) (I.left reader.new) (O.written out.old) (O.written out.new)) (marks (I.failed reader.new) (O.failed out.new)) fault
        × EndsTelling (form_of asks) fault result (E.written err.old) (E.written err.new) (E.failed err.new) }
    ensures input { (asks : Asked) → AreTaken (map string_bytes words.now) → words_ask (map string_bytes words.now) ≡ Some asks
        → reads_input asks ≡ true → I.failed reader.new ≡ true
        → EndsTelling (form_of asks) (ToolFault.Device DeviceName.Input) result (E.written err.old) (E.written err.new) (E.failed err.new) }
{
    match request_of(rt.alloc(), words) {
        Ok(request) => {
            let form = form_of(&request);
            let answer = carry_out(rt, disk, request, reader, out, err);
            status_after(rt.alloc(), form, answer, err)
        }
        Err(unread) => status_of_words(rt.alloc(), &unread, out, err),
    }
}
