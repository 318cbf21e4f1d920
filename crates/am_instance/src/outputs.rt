//! What an instance says, as outputs.

ghost use Rattle.std.specs.Prelude.{◌≡◌, ◌++◌, IfOk, OnErr, OnOk, map};
ghost use Rattle.am_cluster.specs.PrivateCluster.{output_of};
ghost use Rattle.am_site.specs.Reacting.{said_in};

use am_event::{AttemptName, Output};
use am_site::Said;
use am_tenant::TenantName;
use std::alloc::{AllocError, Global};

/// Who says something: an instance in its incarnation, of a tenant.
#[derive(Clone, Copy)]
pub struct Speaker {
    /// Of whom.
    pub tenant: TenantName,
    /// The number of the instance, 1 to 8.
    pub instance: u8,
    /// Which start of it this is, from 1 on.
    pub incarnation: u32,
}

/// Puts out what was said, in order, behind what was put out before. An error is out of memory, and puts nothing out.
pub(crate) fn put_out(
    alloc: Global,
    speaker: Speaker,
    said: Vec<Said>,
    outputs: &mut Vec<Output>,
) -> Result<(), AllocError>
    ensures put { OnOk result (outputs.new.items ≡ outputs.old.items
        ++ map (output_of speaker.tenant speaker.instance speaker.incarnation) (map said_in said.items)) }
    ensures err { OnErr result (outputs.new.items ≡ outputs.old.items) }
{
    let mut more = outputs_of(alloc, speaker, said)?;
    outputs.append(&mut more)
}

// What was said, as outputs, in order.
fn outputs_of(alloc: Global, speaker: Speaker, said: Vec<Said>) -> Result<Vec<Output>, AllocError>
    ensures { IfOk result (λ outputs. outputs.items ≡
        map (λ s. output_of speaker.tenant speaker.instance speaker.incarnation (said_in s)) said.items) }
{
    said.into_iter()
        .map(|said| output_of(speaker, said))
        .collect(alloc)
}

// One thing that was said, as an output.
fn output_of(speaker: Speaker, said: Said) -> Output
    ensures { result ≡ output_of speaker.tenant speaker.instance speaker.incarnation (said_in said) }
{
    match said {
        Said::Reply { connection, bytes } => Output::Reply { connection, bytes },
        Said::Message(message) => Output::Send(message),
        Said::Try(sending) => Output::Notice {
            attempt: AttemptName {
                tenant: speaker.tenant,
                instance: speaker.instance,
                incarnation: speaker.incarnation,
                number: sending.number,
            },
            tries: sending.tries,
            url: sending.url,
            bytes: sending.bytes,
        },
    }
}
