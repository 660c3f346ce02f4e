// Values by definition.
ghost use Rattle.std.specs.Prelude.{IfOk, IfErr, string_bytes};
ghost use Rattle.dob_query.specs.Program.{IsFaultOf};
ghost use Rattle.dob_query.specs.Questions.{AreRightAnswerLines, plain_value};

use dob_files::Answer;
use dob_lines::line_of;
use dob_pieces::Profile;
use dob_text::read_position;
use dob_value::sweep_value;
use std::alloc::Global;

/// The line that gives the value of the position that the text names, by the rules of the profile.
pub fn answer_value(alloc: Global, profile: Profile, text: &str) -> Answer
    ensures ok { IfOk result (λ line. AreRightAnswerLines plain_value profile text.now (string_bytes line)) }
    ensures err { IfErr result (IsFaultOf profile text.now) }
{
    let position = read_position(profile, text)?;
    let value = sweep_value(alloc, profile, &position)?;
    Ok(line_of(alloc, value)?)
}
