use decomposition::{Parts, Scratch};
use model::Model;
use samples::{Weights, chain, exits, export, largest};
use sources::Band;
use std::test::Fail;
use table::{Fault, check};

// Each large table keeps all limits, with rewards and without.
#[test]
fn large_tables_are_lawful(rt: HostRuntime) -> Result<(), Fail> {
    let heap = rt.alloc();
    assert_eq!(rt; check(&largest(heap, 0, Weights::Even)?), Ok(()));
    assert_eq!(rt; check(&largest(heap, 10_000, Weights::Uneven)?), Ok(()));
    assert_eq!(rt; check(&exits(heap, 10_000, Weights::Uneven)?), Ok(()));
    assert_eq!(rt; check(&chain(heap, 10_000)?), Ok(()));
    Ok(())
}

#[test]
fn the_export_is_not(rt: HostRuntime) {
    let found = check(&export());
    assert_eq!(rt;
        found,
        Err(Fault::Sum {
            state: 3,
            choice: 0
        })
    );
}

// A band is one component of all its states.
#[test]
fn a_model_is_taken_apart(rt: HostRuntime) -> Result<(), Fail> {
    let heap = rt.alloc();
    let mut model = Model::new(heap)?;
    let mut scratch = Scratch::new(heap)?;
    let mut parts = Parts::new(heap)?;
    model.load(&Band::new(2, 5, 40))?;
    parts.take_apart(&mut scratch, &model);
    assert_eq!(rt; (parts.nodes(), parts.components()), (1, 1));
    assert_eq!(rt; (parts.node_of(4), parts.component_at(0)), (0, Some(0)));
    assert_eq!(rt; parts.is_inside(4, 1), true);
    // it has two choices
    assert_eq!(rt; parts.is_inside(4, 2), false);
    Ok(())
}

// One component of all states; and a component beside 240 lone states.
#[test]
fn large_tables_are_taken_apart(rt: HostRuntime) -> Result<(), Fail> {
    let heap = rt.alloc();
    let mut model = Model::new(heap)?;
    let mut scratch = Scratch::new(heap)?;
    let mut parts = Parts::new(heap)?;
    model.load(&largest(heap, 0, Weights::Even)?)?;
    parts.take_apart(&mut scratch, &model);
    assert_eq!(rt; (parts.nodes(), parts.components()), (1, 1));
    model.load(&exits(heap, 10_000, Weights::Uneven)?)?;
    parts.take_apart(&mut scratch, &model);
    assert_eq!(rt; (parts.nodes(), parts.components()), (241, 1));
    Ok(())
}
