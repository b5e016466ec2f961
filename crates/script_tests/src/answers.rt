//! Worked scripts and faults, through the top call in memory.

use crate::run::{is_answered, run};
use local_std::Status;
use std::alloc::Global;
use std::test::Fail;
use std::thread::Threads;

/// A script, and what answers it.
struct Row {
    script: &'static [u8],
    status: Status,
    answer: &'static [u8],
}

/// What answers the partial derivatives of x^5+x^2*y^2+y^5, modulo degree 7.
const JACOBIAN: &[u8] =
    b"1 std i\n_[1]=x^2*y-15999*y^4\n_[2]=x*y^2-15999*x^4\n_[3]=x^5-y^5\n_[4]=y^6\ncorner y^5\ndim 11\n";

const ROWS: [Row; 41] = [
    // a fat point whose corner is no power of a variable
    Row {
        script: b"ring r=32003,(x,y),ds;\nnoether=x^5;\nideal i=x3,x2y,y3; std(i);\n",
        status: Status::Fits,
        answer: b"1 std i\n_[1]=x^3\n_[2]=x^2*y\n_[3]=y^3\ncorner x*y^2\ndim 7\n",
    },
    Row {
        script: b"ring r=32003,(x,y),ds;\nnoether=x^5;\nideal i=x3,x2y,y3; vdim(i);\n",
        status: Status::Fits,
        answer: b"1 vdim i\ndim 7\n",
    },
    // scripts of four plain lines: no short monomials, no remarks, no blanks but those that part words
    Row {
        script: b"ring r=32003,(x,y),ds;\nnoether=x^5;\nideal i=x^3,x^2*y,y^3;\nstd(i);\n",
        status: Status::Fits,
        answer: b"1 std i\n_[1]=x^3\n_[2]=x^2*y\n_[3]=y^3\ncorner x*y^2\ndim 7\n",
    },
    Row {
        script: b"ring r=32003,(x,y),ds;\nnoether=y^6;\nideal i=2*x*y^2+5*x^4,2*x^2*y+5*y^4;\nstd(i);\n",
        status: Status::Fits,
        answer: JACOBIAN,
    },
    Row {
        script: b"ring r=32003,(x,y),ds;\nnoether=y^5;\nideal i=2*x*y^2+5*x^4,2*x^2*y+5*y^4;\nstd(i);\n",
        status: Status::TooSmall,
        answer: b"1 std i\nD 5 is too small: y^5\n",
    },
    // the same without its command
    Row {
        script: b"ring r=32003,(x,y),ds;\nnoether=x^5;\nideal i=x^3,x^2*y,y^3;\n",
        status: Status::Input,
        answer: b"line 4 column 1: end of input\n",
    },
    // the partial derivatives of x^5+x^2*y^2+y^5: a whole script with remarks, comments and names, and a degree too small
    Row {
        script: b"LIB \"sing.lib\";\nring r=32003,(x,y),ds;\noption(redSB);\nnoether=y^6;\npoly f=x5+x2y2+y5;   // multiplicity 4\nideal i=jacob(f);\nideal s=std(i);\nstd(i);\n",
        status: Status::Fits,
        answer: JACOBIAN,
    },
    Row {
        script: b"LIB \"sing.lib\";\nring r=32003,(x,y),ds;\noption(redSB);\nnoether=y^5;\npoly f=x5+x2y2+y5;   // multiplicity 4\nideal i=jacob(f);\nideal s=std(i);\nstd(i);\n",
        status: Status::TooSmall,
        answer: b"1 std i\nD 5 is too small: y^5\n",
    },
    // each word on an ideal, on the ideal and on its second name
    Row {
        script: b"LIB \"sing.lib\";\nring r=32003,(x,y),ds;\noption(redSB);\nnoether=y^6;\npoly f=x5+x2y2+y5;\nideal i=jacob(f);\nideal s=std(i);\nstd(i);\nvdim(s);\nkbase(std(i));\nhighcorner(s);\n",
        status: Status::Fits,
        answer: b"1 std i\n_[1]=x^2*y-15999*y^4\n_[2]=x*y^2-15999*x^4\n_[3]=x^5-y^5\n_[4]=y^6\ncorner y^5\ndim 11\n2 vdim s\ndim 11\n3 kbase i\ndim 11\n_[1]=1\n_[2]=x\n_[3]=y\n_[4]=x^2\n_[5]=x*y\n_[6]=y^2\n_[7]=x^3\n_[8]=y^3\n_[9]=x^4\n_[10]=y^4\n_[11]=y^5\n4 highcorner s\ncorner y^5\n",
    },
    // the same generators, in another order and one of them twice
    Row {
        script: b"ring r=32003,(x,y),ds;\nnoether=y^6;\nideal i=2x2y+5y4,5x4+2xy2,2x2y+5y4; std(i);\n",
        status: Status::Fits,
        answer: JACOBIAN,
    },
    // 1-x is a unit at the origin
    Row {
        script: b"ring r=32003,(x),ds;\nnoether=x^3;\nideal i=x-x2; std(i);\n",
        status: Status::Fits,
        answer: b"1 std i\n_[1]=x\ncorner 1\ndim 1\n",
    },
    // x divides the first generator's lead, and y^3 comes from the difference
    Row {
        script: b"ring r=32003,(x,y),ds;\nnoether=x^4;\nideal i=x-x2-y3,x; std(i);\n",
        status: Status::Fits,
        answer: b"1 std i\n_[1]=x\n_[2]=y^3\ncorner y^2\ndim 3\n",
    },
    // a unit
    Row {
        script: b"ring r=32003,(x,y),ds;\nnoether=x^3;\nideal i=1+x; std(i); kbase(i); highcorner(i);\n",
        status: Status::Fits,
        answer: b"1 std i\n_[1]=1\ncorner none\ndim 0\n2 kbase i\ndim 0\n3 highcorner i\ncorner none\n",
    },
    // nothing
    Row {
        script: b"ring r=32003,(x,y),ds;\nnoether=x^4;\nideal i=0; std(i);\n",
        status: Status::TooSmall,
        answer: b"1 std i\nD 4 is too small: x^4\n",
    },
    // 2x is nothing modulo 2
    Row {
        script: b"ring r=2,(x,y),ds;\nnoether=x^3;\nideal i=2x+y,x2; std(i);\n",
        status: Status::Fits,
        answer: b"1 std i\n_[1]=y\n_[2]=x^2\ncorner x\ndim 2\n",
    },
    // a generator beyond the degree
    Row {
        script: b"ring r=32003,(x,y),ds;\nnoether=x^4;\nideal i=x9,y; std(i);\n",
        status: Status::TooSmall,
        answer: b"1 std i\nD 4 is too small: x^4\n",
    },
    // the greatest prime and the greatest degree, and the least of both
    Row {
        script: b"ring r=2147483647,(x),ds;\nnoether=x^255;\nideal i=2x255+x256; std(i);\n",
        status: Status::Fits,
        answer: b"1 std i\n_[1]=x^255\ncorner x^254\ndim 255\n",
    },
    Row {
        script: b"ring r=5,(x),ds;\nnoether=x;\nideal i=x; std(i);\n",
        status: Status::Fits,
        answer: b"1 std i\n_[1]=x\ncorner 1\ndim 1\n",
    },
    // a pure power of each variable is among the leads, and x^2*y isn't
    Row {
        script: b"ring r=32003,(x,y),ds;\nnoether=x^3;\nideal i=x3,y3; std(i);\n",
        status: Status::TooSmall,
        answer: b"1 std i\nD 3 is too small: x^2*y\n",
    },
    // squares modulo another prime
    Row {
        script: b"ring r=65521,(x,y,z),ds;\nnoether=x^4;\nideal i=x2,y2,z2; std(i); kbase(i);\n",
        status: Status::Fits,
        answer: b"1 std i\n_[1]=x^2\n_[2]=y^2\n_[3]=z^2\ncorner x*y*z\ndim 8\n2 kbase i\ndim 8\n_[1]=1\n_[2]=x\n_[3]=y\n_[4]=z\n_[5]=x*y\n_[6]=x*z\n_[7]=y*z\n_[8]=x*y*z\n",
    },
    // two commands, one of which doesn't fit
    Row {
        script: b"ring r=32003,(x,y),ds;\nnoether=x^2;\nideal i=x; ideal j=x,y; std(i); std(j);\n",
        status: Status::TooSmall,
        answer: b"1 std i\nD 2 is too small: y^2\n2 std j\n_[1]=x\n_[2]=y\ncorner 1\ndim 1\n",
    },
    // x^3+y^4 has Milnor number 6, but modulo 3 the first partial derivative is nothing
    Row {
        script: b"ring r=32003,(x,y),ds;\nnoether=x^5;\npoly f=x3+y4; milnor(f);\n",
        status: Status::Fits,
        answer: b"1 milnor f\nmilnor 6\n",
    },
    Row {
        script: b"ring r=3,(x,y),ds;\nnoether=x^5;\npoly f=x3+y4; milnor(f);\n",
        status: Status::TooSmall,
        answer: b"1 milnor f\nD 5 is too small: x^5\n",
    },
    // a degree that is enough for the Tjurina number and not for the Milnor number
    Row {
        script: b"ring r=32003,(x,y),ds;\nnoether=y^5;\npoly f=x5+x2y2+y5; tjurina(f); milnor(f);\n",
        status: Status::TooSmall,
        answer: b"1 tjurina f\ntjurina 10\n2 milnor f\nD 5 is too small: y^5\n",
    },
    // refusals: the end of the input
    Row {
        script: b"ring r=32003,(x,y),ds;\nnoether=x^5;\nideal i=x3,",
        status: Status::Input,
        answer: b"line 3 column 12: end of input\n",
    },
    Row {
        script: b"",
        status: Status::Input,
        answer: b"line 1 column 1: end of input\n",
    },
    Row {
        script: b"ring r=32003,(x,y),ds;\nnoether=x^5;\npoly f=\"a",
        status: Status::Input,
        answer: b"line 3 column 10: end of input\n",
    },
    Row {
        script: b"ring r=32003,(x,y),ds;\nnoether=x^5;\npoly f=x; /*",
        status: Status::Input,
        answer: b"line 3 column 13: end of input\n",
    },
    // a byte of no token
    Row {
        script: b"ring r=32003,(x,y),ds;\nnoether=x^5;\npoly f=x;\x80\n",
        status: Status::Input,
        answer: b"line 3 column 10: bad byte\n",
    },
    // another token
    Row {
        script: b"ring r=32003,(x,y),ds;\nnoether=x^5;\npoly f=2x^3;\n",
        status: Status::Input,
        answer: b"line 3 column 10: expected an operator or the end\n",
    },
    Row {
        script: b"ring r=32003,(x,y),dp;\n",
        status: Status::Input,
        answer: b"line 1 column 20: expected an order\n",
    },
    Row {
        script: b"ring r=32003,(x,y),ds;\nideal i=x;\n",
        status: Status::Input,
        answer: b"line 2 column 1: noether is missing\n",
    },
    // names
    Row {
        script: b"ring r=32003,(x,y),ds;\nnoether=x^5;\npoly f=x+w;\n",
        status: Status::Input,
        answer: b"line 3 column 10: unknown name\n",
    },
    Row {
        script: b"ring r=32003,(x,y),ds;\nnoether=x^5;\npoly xy=x;\n",
        status: Status::Input,
        answer: b"line 3 column 6: name clash\n",
    },
    // numbers
    Row {
        script: b"ring r=32002,(x,y),ds;\nnoether=x^5;\n",
        status: Status::Input,
        answer: b"line 1 column 8: characteristic not in the table\n",
    },
    Row {
        script: b"ring r=2,(x,y),ds;\nnoether=x^5;\npoly f=1/2;\n",
        status: Status::Input,
        answer: b"line 3 column 10: zero divisor\n",
    },
    Row {
        script: b"ring r=32003,(x,y),ds;\nnoether=x^5;\npoly f=x^1001;\n",
        status: Status::Input,
        answer: b"line 3 column 10: exponent too large\n",
    },
    Row {
        script: b"ring r=32003,(x,y),ds;\nnoether=x^5;\npoly f=x1001;\n",
        status: Status::Input,
        answer: b"line 3 column 8: exponent too large\n",
    },
    // degrees
    Row {
        script: b"ring r=32003,(x,y),ds;\nnoether=x^256;\n",
        status: Status::Input,
        answer: b"line 2 column 9: noether degree not 1 to 255\n",
    },
    Row {
        script: b"ring r=32003,(x,y),ds;\nnoether=x0;\n",
        status: Status::Input,
        answer: b"line 2 column 9: noether degree not 1 to 255\n",
    },
    Row {
        script: b"ring r=32003,(x,y,z),ds;\nnoether=x^28;\n",
        status: Status::Input,
        answer: b"line 2 column 9: 4495 monomials, at most 4096\n",
    },
];

#[test]
fn worked_scripts(rt: HostRuntime) -> Result<(), Fail> {
    for row in &ROWS {
        let (status, out) = run(&rt, rt.alloc(), &["solve"], row.script, &[], 1000)?;
        assert_eq!(rt; status, row.status);
        assert_eq!(rt; out.bytes(), row.answer);
    }
    Ok(())
}

#[test]
fn faults(rt: HostRuntime) -> Result<(), Fail> {
    // a read that fails in mid-script, and a sink that is full in mid-answer
    let script = ROWS[0].script;
    let (status, out) = run(&rt, rt.alloc(), &["solve"], script, &[1], 1000)?;
    assert!(rt; status == Status::ReadFault && out.bytes().is_empty());
    let (status, out) = run(&rt, rt.alloc(), &["solve"], script, &[], 7)?;
    assert!(rt; status == Status::WriteFault && out.bytes() == b"1 std i".as_slice());
    Ok(())
}

/// A script that has a piece so many times.
fn repeated(
    alloc: Global,
    before: &[u8],
    piece: &[u8],
    count: u32,
    after: &[u8],
) -> Result<Vec<u8>, Fail> {
    let mut script = before.to_vec(alloc)?;
    for _ in 0..count {
        script.extend_from_slice(piece)?;
    }
    script.extend_from_slice(after)?;
    Ok(script)
}

/// Scripts that have a piece so many times between two others, which is once too often, and how each is refused.
const ONE_TOO_MANY: &[(&[u8], &[u8], u32, &[u8], &[u8])] = &[
    (
        b"ring r=32003,(x,y),ds;\nnoether=x^5;\npoly f=",
        b"(",
        33,
        b"\n",
        b"line 3 column 40: too deep\n",
    ),
    (
        b"ring r=32003,(x,y),ds;\nnoether=x^5;\nideal i=x",
        b",x",
        64,
        b";\n",
        b"line 3 column 137: too many generators\n",
    ),
    (
        b"ring r=32003,(x,y),ds;\nnoether=x^5;\nideal i=x;\n",
        b"vdim(i);\n",
        65,
        b"",
        b"line 68 column 1: too many commands\n",
    ),
];

#[test]
fn limits(rt: HostRuntime) -> Result<(), Fail> {
    let alloc = rt.alloc();
    for (before, piece, count, after, refusal) in ONE_TOO_MANY {
        let script = repeated(alloc, before, piece, *count, after)?;
        assert!(rt; is_answered(&rt, alloc, &script, Status::Input, refusal)?);
    }
    Ok(())
}

#[test]
fn a_long_numeral(rt: HostRuntime) -> Result<(), Fail> {
    // 1 and a hundred thousand zeros, which is 1 modulo 11
    let script = repeated(
        rt.alloc(),
        b"ring r=11,(x),ds;\nnoether=x^2;\nideal i=1",
        b"0",
        100_000,
        b"x; std(i);\n",
    )?;
    assert!(rt;
        is_answered(
            &rt,
            rt.alloc(),
            &script,
            Status::Fits,
            b"1 std i\n_[1]=x\ncorner 1\ndim 1\n"
        )?
    );
    Ok(())
}

#[test]
fn longest_scripts(rt: HostRuntime) -> Result<(), Fail> {
    let alloc = rt.alloc();

    // as many bytes as a script may have, and one more
    let script = ROWS[0].script;
    let blanks = 1_048_576_u32.saturating_sub(script.len() as u32);
    let full = repeated(alloc, b"", b" ", blanks, script)?;
    assert_eq!(rt; full.len(), 1_048_576);
    assert!(rt; is_answered(&rt, alloc, &full, Status::Fits, ROWS[0].answer)?);
    let long = repeated(alloc, b" ", b" ", blanks, script)?;
    assert!(rt; is_answered(&rt, alloc, &long, Status::Input, b"input too long\n")?);
    Ok(())
}

#[test]
fn longest_numerals(rt: HostRuntime) -> Result<(), Fail> {
    let alloc = rt.alloc();

    // nothing but digits, as many as a script may have
    let digits = repeated(alloc, b"", b"7", 1_048_576, b"")?;
    assert!(rt;
        is_answered(
            &rt,
            alloc,
            &digits,
            Status::Input,
            b"line 1 column 1: expected ring\n"
        )?
    );

    // a numeral of 1 and zeros that fills a script, and is 1 or 10 modulo 11
    let before = b"ring r=11,(x),ds;\nnoether=x^2;\nideal i=1".as_slice();
    let after = b"x; std(i);\n".as_slice();
    let zeros = 1_048_576_u32.saturating_sub((before.len() + after.len()) as u32);
    let full = repeated(alloc, before, b"0", zeros, after)?;
    assert_eq!(rt; full.len(), 1_048_576);
    assert!(rt;
        is_answered(
            &rt,
            alloc,
            &full,
            Status::Fits,
            b"1 std i\n_[1]=x\ncorner 1\ndim 1\n"
        )?
    );
    Ok(())
}

#[test]
fn most_monomials(rt: HostRuntime) -> Result<(), Fail> {
    let alloc = rt.alloc();
    let script = b"ring r=32003,(x,y,z),ds;\nnoether=x^27;\nideal i=x2,y2,z2; std(i);\n";
    let answer = b"1 std i\n_[1]=x^2\n_[2]=y^2\n_[3]=z^2\ncorner x*y*z\ndim 8\n";
    assert!(rt; is_answered(&rt, alloc, script, Status::Fits, answer)?);
    Ok(())
}
