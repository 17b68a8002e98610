// The static library: the two functions of `setter::exports`, under the names by which C and Rust call them, with the
// same promises; and the form of the interface. They stand in a crate of their own, since a crate is a library or a
// static library.
#![tactic(auto)]

ghost use Rattle.std.specs.Prelude.{◌≡◌};
ghost use Rattle.setter.specs.Exports.{CheckPromise, SetPromise};

use setter::exports;

// The check. Its promise is the check's, for the answer and for the whole report.
#[unsafe(no_mangle)]
pub extern "C" fn reedsander_check(sheet: &[u32], text: &[u8], report: &mut [u32]) -> u64
    ensures { CheckPromise sheet.now text.now report.old result report.new }
{
    exports::reedsander_check(sheet, text, report)
}

// The setting machine. Its promise is the machine's, for the answer and for every mark.
#[unsafe(no_mangle)]
pub extern "C" fn reedsander_set(sheet: &[u32], text: &[u8], marks: &mut [u32]) -> u64
    ensures { SetPromise sheet.now text.now marks.old result marks.new }
{
    exports::reedsander_set(sheet, text, marks)
}

// The form of the interface: what the words of a record, of an entry and of an answer are. It changes its number and
// its name when one of them does, so that a caller that names it is not linked with a library of another form.
#[unsafe(no_mangle)]
pub extern "C" fn reedsander_form_1() -> u32
    ensures { result ≡ 1 }
{
    1
}
