use spp_maxplus::{Burdens, ChildKind, Seg, State};

#[test]
fn a_child_and_a_longer_continuation(rt: HostRuntime) {
    let burdens = Burdens {
        continuation: 3,
        join: 5,
    };
    let mut state = State::start();
    state.run(1);
    state.receive(ChildKind::Spawned, 1, 10, burdens);
    assert_eq!(rt;
        state,
        State {
            spine: 4,
            child: Some((16, 1)),
        }
    );
    assert_eq!(rt; state.close_after(4), 16);
    assert_eq!(rt; state.close_after(13), 17);
    state.run(12);
    assert_eq!(rt; state.taken(), Some(1));
    assert_eq!(rt; state.close(), 16);
    state.run(1);
    assert_eq!(rt; state.taken(), None);
    assert_eq!(rt; state.close(), 17);
}

#[test]
fn the_earlier_of_equal_children(rt: HostRuntime) {
    let mut state = State::start();
    state.receive(ChildKind::Spawned, 0, 5, Burdens::default());
    state.receive(ChildKind::Spawned, 3, 5, Burdens::default());
    assert_eq!(rt; state.child, Some((5, 0)));
    state.receive(ChildKind::Spawned, 6, 6, Burdens::default());
    assert_eq!(rt; state.child, Some((6, 6)));
}

#[test]
fn a_sync_joins_the_child(rt: HostRuntime) {
    let mut state = State::start();
    state.receive(ChildKind::Spawned, 0, 7, Burdens::default());
    state.run(2);
    state.wait();
    assert_eq!(rt;
        state,
        State {
            spine: 7,
            child: None,
        }
    );
    state.receive(ChildKind::Called, 4, 4, Burdens::default());
    assert_eq!(rt; state.close(), 11);
}

#[test]
fn one_list_after_another(rt: HostRuntime) {
    let middle = Seg::spawn(0, 6, Burdens::equal(3)).then(Seg::strand(2));
    assert_eq!(rt;
        middle.apply(State::start()),
        State {
            spine: 5,
            child: Some((9, 0)),
        }
    );
    let synced = middle.then(Seg::sync()).then(Seg::strand(1));
    assert_eq!(rt;
        synced,
        Seg {
            head: Some(9),
            add: 1,
            offer: None,
        }
    );
    let both = synced.then(middle).then(Seg::sync());
    assert_eq!(rt;
        both,
        Seg {
            head: Some(9),
            add: 10,
            offer: None,
        }
    );
    assert_eq!(rt; Seg::idle().then(both).then(Seg::idle()), both);
}

#[test]
fn a_list_grows_by_the_steps_of_a_state(rt: HostRuntime) {
    let burdens = Burdens {
        continuation: 3,
        join: 5,
    };
    let mut list = Seg::idle();
    list.run(1);
    list.receive(ChildKind::Spawned, 1, 10, burdens);
    list.wait();
    list.receive(ChildKind::Called, 4, 2, burdens);
    assert_eq!(rt;
        list,
        Seg {
            head: Some(16),
            add: 2,
            offer: None,
        }
    );
}
