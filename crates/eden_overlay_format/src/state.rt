//! The state that a clean close leaves: file 0.

ghost use Rattle.std.specs.Prelude.{◌≡◌, ◌≤◌, Some, IfOk, IfErr};
ghost use Rattle.eden_model.specs.Limits.{number_least, number_end};
ghost use Rattle.eden_overlay_format.specs.Stored.{Refuses, stored_as};
ghost use Rattle.eden_overlay_format.specs.State.{IsGoodState, IsState, state_body};
ghost use Rattle.eden_overlay_format.specs.Reading.{Reaches, state_of};
ghost use Rattle.eden_overlay_format.specs.Values.{state_in};
ghost use Rattle.eden_overlay_format.specs.declared.header.Identifier.TheVariants as identifier;

use crate::fields::{array_of, u64_of};
use crate::header::{Identifier, body_of, seal, start};
use crate::refusal::Refusal;
use crate::writing::put_id;
use eden_model::{Id, NUMBER_END};
use std::alloc::{AllocError, Global};

/// What the next mount needs to know: the tree that the overlay stands on, and the next inode number, from 2 to 2^63.
#[derive(Clone, Copy, Debug, PartialEq, Eq)]
pub struct State {
    pub root: Id,
    pub next: u64,
}

/// The length of a state's body, in bytes.
const STATE_LEN: usize = 28;

/// The least next number: the root has 1.
const NEXT_LEAST: u64 = 2;

/// The highest next number: that of a mount that has no number left.
const NEXT_MOST: u64 = NUMBER_END;

/// The stored file of a state. The only error is want of memory.
pub fn encode_state(alloc: Global, state: State) -> Result<Vec<u8>, AllocError>
    requires least { number_least ≤ state.next }
    requires most { state.next ≤ number_end }
    ensures bytes { IfOk result (λ v. v.items ≡ stored_as identifier.File (state_body state)) }
    ensures read_again { IfOk result (λ v. IsState v.items state) }
{
    let mut out = start(Vec::new(alloc), STATE_LEN)?;
    put_id(&mut out, state.root)?;
    out.extend_from_slice(&state.next.to_be_bytes())?;
    seal(Identifier::File, &mut out);
    Ok(out)
}

#[tactic(auto, unfolding(crate::specs::Reading::state_of))]
fn state_of(body: &[u8]) -> Result<State, Refusal>
    ensures { Reaches (λ s. s) result (state_of body.now) }
{
    let (id, rest) = array_of::<20>(body)?;
    let (next, rest) = u64_of(rest)?;
    if !rest.is_empty() {
        return Err(Refusal::BadBody);
    }
    if next < NEXT_LEAST {
        return Err(Refusal::BadBody);
    }
    if next > NEXT_MOST {
        return Err(Refusal::BadBody);
    }
    let root = Id { bytes: id };
    Ok(State { root, next })
}

/// The state that the bytes store, or the first refusal.
#[tactic(auto, unfolding(crate::specs::Values::state_in))]
pub fn decode_state(bytes: &[u8]) -> Result<State, Refusal>
    ensures found { IfOk result (λ s. state_in bytes.now ≡ Some s) }
    ensures good { IfOk result IsGoodState }
    ensures refused { IfErr result (Refuses identifier.File state_in bytes.now) }
{
    let body = body_of(Identifier::File, bytes)?;
    state_of(body)
}
