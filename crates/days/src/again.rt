use crate::day::print_answer;
use engine::{Asked, Call, Space, replay};
use sources::Band;
use std::io;

// A call with the place for its answer.
fn asked(call: Call<Band>) -> Asked<Band> {
    Asked { call, answer: None }
}

// Three days of one engine as one list of calls: the second day's table is refused, the third day's is another band.
pub(crate) fn print_days(rt: &HostRuntime) -> io::Result<()> {
    let refine = Call::Refine {
        component: 0,
        steps: 100,
        width: 1024,
    };
    let quote = || Call::Quote {
        state: 0,
        width: 1024,
    };
    let mut calls = [
        asked(refine),
        asked(Call::Sweep { count: 10 }),
        asked(Call::Load(Band::new(0, 5, 40))),
        asked(quote()),
        asked(Call::Load(Band::new(1, 5, 40))),
        asked(quote()),
    ];
    let _engine = replay(Space::new(rt.alloc())?, &Band::new(2, 5, 40), &mut calls);
    for one in &calls {
        if let Some(answer) = one.answer {
            print_answer(rt, answer)?;
        }
    }
    Ok(())
}
