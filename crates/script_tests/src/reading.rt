//! What the reader makes of a script, value by value.

use ring_reader::{Subject, Word, read_script};
use std::test::Fail;

#[test]
fn reads_what_is_asked(rt: HostRuntime) -> Result<(), Fail> {
    let script =
        b"// a comment\nLIB \"sing.lib\";\nring r=32003,(x,y),ds;\noption(redSB);\nnoether=xy*y^3; /* degree 5 */\npoly f=2xy3-(x+1/2)^2;\nideal i=jacob(f),x6;\nideal s=std(i);\nstd(std(s));\nmilnor(f);\n";
    let Ok(script) = read_script(rt.alloc(), script) else {
        return Err(Fail::from("it is not read"));
    };
    assert_eq!(rt; script.names.bytes(), b"xy".as_slice());
    assert_eq!(rt; script.field.prime(), 32003);
    assert_eq!(rt; script.d, 5);
    assert_eq!(rt; script.commands.len(), 2);
    let command = script.commands.get(0);
    assert_eq!(rt; command.word, Word::Std);
    assert_eq!(rt; command.name.bytes(), b"s".as_slice());
    let Subject::Ideal(problem) = &command.subject else {
        return Err(Fail::from("it speaks of no ideal"));
    };
    // the derivatives 2y^3-2x-1 and 6xy^2, and x^6, which is cut away
    assert_eq!(rt; problem.gens().len(), 3);
    let by_x = problem.gens().get(0);
    assert_eq!(rt; by_x.len(), 3);
    assert_eq!(rt; by_x.get(0).coef, 32002);
    assert_eq!(rt; by_x.get(1).coef, 32001);
    assert_eq!(rt; by_x.get(2).coef, 2);
    assert_eq!(rt; by_x.get(2).mono.degree(), 3);
    let by_y = problem.gens().get(1);
    assert_eq!(rt; by_y.len(), 1);
    assert_eq!(rt; by_y.get(0).coef, 6);
    assert!(rt; problem.gens().get(2).is_zero());
    assert!(rt; matches!(&script.commands.get(1).subject, Subject::Function(_)));
    Ok(())
}
