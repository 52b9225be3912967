use hz_early::{EarlySet, ScopeEvent};
use hz_tree::{BindingKind, EarlyKind, ScopeKind};
use std::alloc::Global;
use std::test::Fail;

const BLOCK: ScopeEvent<'static> = ScopeEvent::Open(ScopeKind::Block);

const FUNCTION: ScopeEvent<'static> = ScopeEvent::Open(ScopeKind::Function);

/// A declaration of the name `a`.
fn declare(kind: BindingKind, at: usize) -> ScopeEvent<'static> {
    ScopeEvent::Declare {
        kind,
        name: b"a",
        at,
    }
}

/// The least error behind these events, within a script.
fn least(alloc: Global, events: &[ScopeEvent<'_>]) -> Result<Option<(EarlyKind, usize)>, Fail> {
    let mut set = EarlySet::new(alloc);
    set.event(ScopeEvent::Open(ScopeKind::Script))?;
    for event in events {
        set.event(*event)?;
    }
    Ok(set.least())
}

#[test]
fn finds_what_clashes(rt: HostRuntime) -> Result<(), Fail> {
    for (scope, first, second, wanted) in [
        (
            ScopeKind::Block,
            BindingKind::Let,
            BindingKind::Const,
            Some(EarlyKind::DuplicateLexical),
        ),
        (
            ScopeKind::Block,
            BindingKind::Let,
            BindingKind::Var,
            Some(EarlyKind::LexicalVarClash),
        ),
        (
            ScopeKind::Block,
            BindingKind::Var,
            BindingKind::Let,
            Some(EarlyKind::LexicalVarClash),
        ),
        (
            ScopeKind::Block,
            BindingKind::BlockFunction,
            BindingKind::BlockFunction,
            Some(EarlyKind::DuplicateLexical),
        ),
        (
            ScopeKind::Function,
            BindingKind::Parameter,
            BindingKind::Parameter,
            Some(EarlyKind::DuplicateParameter),
        ),
        (
            ScopeKind::Function,
            BindingKind::Parameter,
            BindingKind::Let,
            Some(EarlyKind::ParameterClash),
        ),
        (
            ScopeKind::Function,
            BindingKind::Parameter,
            BindingKind::Var,
            None,
        ),
        (
            ScopeKind::Catch,
            BindingKind::Caught,
            BindingKind::Let,
            Some(EarlyKind::CatchClash),
        ),
        (
            ScopeKind::Catch,
            BindingKind::Caught,
            BindingKind::Var,
            Some(EarlyKind::CatchClash),
        ),
        (ScopeKind::Block, BindingKind::Var, BindingKind::Var, None),
    ] {
        let events = [
            ScopeEvent::Open(scope),
            declare(first, 4),
            declare(second, 9),
        ];
        let found = least(rt.alloc(), &events)?;
        assert_eq!(rt;
            found,
            wanted.map(|kind| (kind, 9)),
            "of {first:?} and {second:?}"
        );
    }
    Ok(())
}

#[test]
fn knows_how_far_a_name_reaches(rt: HostRuntime) -> Result<(), Fail> {
    let outer = declare(BindingKind::Let, 4);
    let inner = declare(BindingKind::Var, 9);
    let clash = Some((EarlyKind::LexicalVarClash, 9));
    assert_eq!(rt; least(rt.alloc(), &[outer, BLOCK, BLOCK, inner])?, clash);
    assert_eq!(rt;
        least(rt.alloc(), &[BLOCK, outer, ScopeEvent::Close, inner])?,
        None
    );
    assert_eq!(rt; least(rt.alloc(), &[outer, FUNCTION, inner])?, None);
    let found = [
        ScopeEvent::Found(EarlyKind::Target, 7),
        ScopeEvent::Found(EarlyKind::NewTarget, 5),
        ScopeEvent::Found(EarlyKind::LegacyOctal, 5),
    ];
    assert_eq!(rt;
        least(rt.alloc(), &found)?,
        Some((EarlyKind::LegacyOctal, 5))
    );
    Ok(())
}
