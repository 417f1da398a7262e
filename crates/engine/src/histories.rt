ghost use Rattle.engine.specs.States.{state_of};
ghost use Rattle.engine.specs.Replays.{Makes, Replayed};

use crate::call::{Answer, Asked, Call};
use crate::engine::Engine;
use crate::space::Space;
use table::Source;

// Makes one call, and answers what it answered; the choices of a plan are written into the list of the call.
fn make<S: Source + Drop>(engine: &mut Engine, call: &mut Call<S>) -> Answer
    ensures { Makes S.table (state_of engine.old) (state_of engine.new) call.old call.new result }
{
    match call {
        Call::Load(source) => engine
            .load(source)
            .map_or_else(Answer::Refused, |()| Answer::Done),
        Call::Standing => {
            let stands = engine.standing();
            stands.map_or_else(
                Answer::Unopened,
                |(states, components)| Answer::Stands { states, components },
            )
        }
        Call::Refine {
            component,
            steps,
            width,
        } => {
            let refined = engine.refine(*component, *steps, *width);
            refined.map_or_else(
                Answer::Refused,
                |(made, lo, hi)| Answer::Refined { made, lo, hi },
            )
        }
        Call::Sweep { count } => engine
            .sweep(*count)
            .map_or_else(Answer::Refused, |made| Answer::Swept { made }),
        Call::Close => engine
            .close()
            .map_or_else(Answer::Refused, |()| Answer::Done),
        Call::Quote { state, width } => {
            let quoted = engine.quote(*state, *width);
            quoted.map_or_else(
                Answer::Refused,
                |(lower, upper, mark)| Answer::Quoted { lower, upper, mark },
            )
        }
        Call::Plan { list } => engine
            .plan(list)
            .map_or_else(Answer::Refused, |()| Answer::Planned),
    }
}

// Opens the source and makes the calls on that one engine, each from what the one before left; each answer is written into the place
// beside its call. Nothing is allocated, so nothing fails.
pub fn replay<S: Source + Drop>(space: Space, source: &S, asked: &mut [Asked<S>]) -> Engine
    ensures { Replayed S.table (S.table source.now) asked.old asked.new (state_of result) }
{
    let mut engine = Engine::open(space, source);
    for one in asked.iter_mut() {
        let answer = make(&mut engine, &mut one.call);
        one.answer = Some(answer);
    }
    engine
}
