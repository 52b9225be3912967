use hz_ops::{Instr, Op, Operand, decode, encode_into, fits, push_instr};
use std::test::Fail;

#[test]
fn the_two_forms(rt: HostRuntime) -> Result<(), Fail> {
    let operands = [Operand::Register(3), Operand::Int(-2)];
    let mut bytes = [0; 41];
    let short = Instr::new(Op::LoadInt, false, &operands);
    assert!(rt; fits(&short));
    assert_eq!(rt; encode_into(&short, &mut bytes), 3);
    assert_eq!(rt; &bytes[..3], [0x06, 0x03, 0xFE].as_slice());

    let long = Instr::new(Op::LoadInt, true, &operands);
    assert!(rt; fits(&long));
    assert_eq!(rt; encode_into(&long, &mut bytes), 17);
    assert_eq!(rt;
        &bytes[..17],
        [
            0x86, 3, 0, 0, 0, 0, 0, 0, 0, 0xFE, 255, 255, 255, 255, 255, 255, 255
        ]
        .as_slice()
    );
    Ok(())
}

#[test]
fn nothing_stands_there(rt: HostRuntime) {
    assert!(rt; decode(&[0x00], 0).is_none());
    assert!(rt; decode(&[0x06, 0x03], 0).is_none());
    assert!(rt; decode(&[0x06, 0x03, 0xFE], 3).is_none());
    assert!(rt; decode(&[0x06, 0x03, 0xFE], 4).is_none());
}

#[test]
fn what_is_pushed_is_read(rt: HostRuntime) -> Result<(), Fail> {
    let large = Instr::shortest(Op::LoadInt, &[Operand::Register(3), Operand::Int(128)]);
    assert!(rt; large.long);
    assert!(rt; fits(&large));
    let mut code = Vec::new(rt.alloc());
    code.push(0x40)?;
    push_instr(&mut code, &large)?;
    assert_eq!(rt; code.len(), 18);
    assert_eq!(rt; decode(&code, 1), Some((large, 17)));
    Ok(())
}
