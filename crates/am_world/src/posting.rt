//! Posting messages, all that are put out together or none.

ghost use Rattle.std.specs.Prelude.{◌≡◌, ◌++◌, None, OnErr, OnOk, if◌then◌else◌};
ghost use Rattle.am_messages.specs.Posted.{posted_at};
ghost use Rattle.am_messages.specs.declared.name.MessageName.{MessageName};
ghost use Rattle.am_world.specs.Posting.{AreFiled, LosesAll, Posts, SparesOthers, is_of_name, posted_by};

use am_event::Output;
use am_messages::{MessageName, Messages};
use am_text::Moment;
use std::alloc::AllocError;

/// Posts the messages among these outputs at a moment, and appends the outputs to what was put out before.
///
/// # Errors
/// Out of memory. Nothing is put out, and no message of a name among these is posted any more.
pub(crate) fn send_out(
    messages: &mut Messages,
    outputs: &mut Vec<Output>,
    mut told: Vec<Output>,
    moment: Moment,
) -> Result<(), AllocError>
    ensures posts { OnOk result (Posts moment told.items messages.old messages.new) }
    ensures appended { OnOk result (outputs.new.items ≡ outputs.old.items ++ told.items) }
    ensures lost { OnErr result (LosesAll told.items messages.old messages.new) }
    ensures silent { OnErr result (outputs.new.items ≡ outputs.old.items) }
    ensures filed { AreFiled messages.old → AreFiled messages.new }
{
    post(messages, told.as_slice(), moment)?;
    match outputs.append(&mut told) {
        Ok(()) => Ok(()),
        Err(error) => {
            lose_all(messages, told.as_slice());
            Err(error)
        }
    }
}

// Posts the messages among these outputs, or none of them.
fn post(messages: &mut Messages, told: &[Output], moment: Moment) -> Result<(), AllocError>
    ensures posts { OnOk result (Posts moment told.now messages.old messages.new) }
    ensures lost { OnErr result (LosesAll told.now messages.old messages.new) }
    ensures filed { AreFiled messages.old → AreFiled messages.new }
{
    match post_each(messages, told, moment) {
        Ok(()) => Ok(()),
        Err(error) => {
            lose_all(messages, told);
            Err(error)
        }
    }
}

// Posts them one after the other; where one isn't posted, those before it are.
fn post_each(messages: &mut Messages, told: &[Output], moment: Moment) -> Result<(), AllocError>
    ensures posts { OnOk result (Posts moment told.now messages.old messages.new) }
    ensures spared { SparesOthers told.now messages.old messages.new }
    ensures filed { AreFiled messages.old → AreFiled messages.new }
{
    for output in told {
        post_one(messages, output, moment)?;
    }
    Ok(())
}

// Posts one that is a message.
fn post_one(messages: &mut Messages, output: &Output, moment: Moment) -> Result<(), AllocError>
    ensures posted { OnOk result ((name : MessageName) →
        posted_at name messages.new ≡ posted_by moment output.now name (posted_at name messages.old)) }
    ensures err { OnErr result ((name : MessageName) → posted_at name messages.new ≡ posted_at name messages.old) }
    ensures filed { AreFiled messages.old → AreFiled messages.new }
{
    match output {
        Output::Send(message) => messages.send(message.share()?, moment),
        Output::Reply { .. } | Output::Notice { .. } => Ok(()),
    }
}

// Loses the messages among these outputs.
fn lose_all(messages: &mut Messages, told: &[Output])
    ensures lost { LosesAll told.now messages.old messages.new }
    ensures filed { AreFiled messages.old → AreFiled messages.new }
{
    for output in told {
        lose_one(messages, output);
    }
}

// Loses one that is a message.
fn lose_one(messages: &mut Messages, output: &Output)
    ensures lost { (name : MessageName) → posted_at name messages.new
        ≡ (if is_of_name name output.now then None else posted_at name messages.old) }
    ensures filed { AreFiled messages.old → AreFiled messages.new }
{
    match output {
        Output::Send(message) => messages.lose(&MessageName::of(message)),
        Output::Reply { .. } | Output::Notice { .. } => {}
    }
}
