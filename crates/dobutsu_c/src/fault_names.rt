// What a fault is called.
ghost use Rattle.std.specs.Prelude.{◌≡◌, ◌≤◌, ◌<◌, length};
ghost use Rattle.dob_text.specs.declared.fault.TextFault.{TextFault as AnyTextFault};
ghost use Rattle.dob_text.specs.Faults as texts;
ghost use Rattle.dob_dbfile.specs.declared.fault.Fault.{Fault as AnyFileFault};
ghost use Rattle.dob_dbfile.specs.FaultTexts as files;
ghost use Rattle.dob_certfile.specs.declared.defect.Defect.{Defect as AnyDefect};
ghost use Rattle.dob_certfile.specs.Faults.{defect_text};
ghost use Rattle.dob_foreign.specs.Faults.{file_number, text_number};
ghost use Rattle.dob_foreign.specs.Texts.{IsText};
ghost use Rattle.dobutsu_c.specs.Certificates.{defect_number};
ghost use Rattle.dobutsu_c.specs.FaultNames.{name_of};

use dob_foreign::DobutsuText;

/// The text of a fault by its number, as the program prints it: `E7 OtherSet`. The class that it prints behind 21 and 30 isn't there. A number that is no fault
/// of these calls has an empty text. It answers how many bytes the text has.
#[unsafe(no_mangle)]
pub extern "C" fn dobutsu_fault_text(fault: u32, text: &mut DobutsuText) -> u32
    ensures name { IsText text.new (name_of fault) }
    ensures texts { (given : AnyTextFault) → fault ≡ text_number given → IsText text.new (texts.fault_text given) }
    ensures files { (given : AnyFileFault) → fault ≡ file_number given → IsText text.new (files.fault_text given) }
    ensures defects { (given : AnyDefect) → fault ≡ defect_number given → IsText text.new (defect_text given) }
    ensures size { result ≡ text.new.length }
{
    *text = text_of(name_of(fault));
    text.length
}

// A text of so few bytes.
fn text_of(name: &str) -> DobutsuText
    requires { length name.now ≤ 32 }
    ensures { IsText result name.now }
{
    let letters = name.as_bytes();
    let mut bytes = [0; 32];
    bytes[..letters.len()].copy_from_slice(letters);
    DobutsuText {
        length: letters.len() as u32,
        bytes,
    }
}

fn name_of(fault: u32) -> &'static str
    ensures name { result.now ≡ name_of fault }
    ensures few { length result.now ≤ 32 }
{
    match fault {
        0..=14 => first_name_of(fault),
        15..=29 => next_name_of(fault),
        30..=42 => last_name_of(fault),
        43.. => "",
    }
}

// Of those of a text, and of the set.
fn first_name_of(fault: u32) -> &'static str
    requires { fault < 15 }
    ensures name { result.now ≡ name_of fault }
    ensures few { length result.now ≤ 32 }
{
    match fault {
        1 => "E1 Shape",
        2 => "E2 Letter",
        3 => "E3 Hand",
        4 => "E4 Lions",
        5 => "E5 Count",
        6 => "E6 FarLion",
        7 => "E7 OtherSet",
        _ => "",
    }
}

// Of those of a file and of what is asked.
fn next_name_of(fault: u32) -> &'static str
    requires low { 15 ≤ fault }
    requires high { fault < 30 }
    ensures name { result.now ≡ name_of fault }
    ensures few { length result.now ≤ 32 }
{
    match fault {
        15 => "E15 Truncated",
        16 => "E16 Magic",
        17 => "E17 SetByte",
        18 => "E18 ClassCount",
        19 => "E19 Trailing",
        20 => "E20 Digest",
        21 => "E21 Inconsistent",
        23 => "E23 Memory",
        24 => "E24 Io",
        25 => "E25 SetText",
        26 => "E26 FarChick",
        27 => "E27 ProfileByte",
        28 => "E28 NoMove",
        29 => "E29 Index",
        _ => "",
    }
}

// The names of a certificate's faults, E30 to E42.
fn last_name_of(fault: u32) -> &'static str
    requires low { 30 ≤ fault }
    requires high { fault < 43 }
    ensures name { result.now ≡ name_of fault }
    ensures few { length result.now ≤ 32 }
{
    match fault {
        30 => "E30 Unsupported",
        31 => "E31 Claim",
        32 => "E32 Version",
        33 => "E33 RootClass",
        34 => "E34 ClaimByte",
        35 => "E35 EntryCount",
        36 => "E36 EntryNumber",
        37 => "E37 EntryOrder",
        38 => "E38 EntryClass",
        39 => "",
        40 => "",
        41 => "",
        _ => "E42 EntryPlies",
    }
}
