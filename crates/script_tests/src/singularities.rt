//! The singularities of Arnold's lists, with their Milnor and Tjurina numbers in the literature: both are the same where the
//! function is quasi-homogeneous, and those of the hyperbolic ones (T with three numbers) differ by one.

use crate::run::is_answered;
use local_std::Status;
use std::test::Fail;

/// A script that asks for both numbers, and the numbers.
struct Singularity {
    script: &'static [u8],
    numbers: &'static [u8],
}

const SINGULARITIES: [Singularity; 32] = [
    // A1
    Singularity {
        script: b"ring r=32003,(x,y),ds;\nnoether=x^2;\npoly f=x^2+y^2;\nmilnor(f);\ntjurina(f);\n",
        numbers: b"1 milnor f\nmilnor 1\n2 tjurina f\ntjurina 1\n",
    },
    // A2
    Singularity {
        script: b"ring r=32003,(x,y),ds;\nnoether=x^3;\npoly f=x^3+y^2;\nmilnor(f);\ntjurina(f);\n",
        numbers: b"1 milnor f\nmilnor 2\n2 tjurina f\ntjurina 2\n",
    },
    // A4
    Singularity {
        script: b"ring r=32003,(x,y),ds;\nnoether=x^5;\npoly f=x^5+y^2;\nmilnor(f);\ntjurina(f);\n",
        numbers: b"1 milnor f\nmilnor 4\n2 tjurina f\ntjurina 4\n",
    },
    // A10
    Singularity {
        script: b"ring r=32003,(x,y),ds;\nnoether=x^11;\npoly f=x^11+y^2;\nmilnor(f);\ntjurina(f);\n",
        numbers: b"1 milnor f\nmilnor 10\n2 tjurina f\ntjurina 10\n",
    },
    // D4
    Singularity {
        script: b"ring r=32003,(x,y),ds;\nnoether=x^5;\npoly f=x^2*y+y^3;\nmilnor(f);\ntjurina(f);\n",
        numbers: b"1 milnor f\nmilnor 4\n2 tjurina f\ntjurina 4\n",
    },
    // D5
    Singularity {
        script: b"ring r=32003,(x,y),ds;\nnoether=x^6;\npoly f=x^2*y+y^4;\nmilnor(f);\ntjurina(f);\n",
        numbers: b"1 milnor f\nmilnor 5\n2 tjurina f\ntjurina 5\n",
    },
    // D10
    Singularity {
        script: b"ring r=32003,(x,y),ds;\nnoether=x^11;\npoly f=x^2*y+y^9;\nmilnor(f);\ntjurina(f);\n",
        numbers: b"1 milnor f\nmilnor 10\n2 tjurina f\ntjurina 10\n",
    },
    // E6
    Singularity {
        script: b"ring r=32003,(x,y),ds;\nnoether=x^7;\npoly f=x^3+y^4;\nmilnor(f);\ntjurina(f);\n",
        numbers: b"1 milnor f\nmilnor 6\n2 tjurina f\ntjurina 6\n",
    },
    // E7
    Singularity {
        script: b"ring r=32003,(x,y),ds;\nnoether=x^8;\npoly f=x^3+x*y^3;\nmilnor(f);\ntjurina(f);\n",
        numbers: b"1 milnor f\nmilnor 7\n2 tjurina f\ntjurina 7\n",
    },
    // E8
    Singularity {
        script: b"ring r=32003,(x,y),ds;\nnoether=x^9;\npoly f=x^3+y^5;\nmilnor(f);\ntjurina(f);\n",
        numbers: b"1 milnor f\nmilnor 8\n2 tjurina f\ntjurina 8\n",
    },
    // P8
    Singularity {
        script: b"ring r=32003,(x,y,z),ds;\nnoether=x^9;\npoly f=x^3+y^3+z^3+x*y*z;\nmilnor(f);\ntjurina(f);\n",
        numbers: b"1 milnor f\nmilnor 8\n2 tjurina f\ntjurina 8\n",
    },
    // X9
    Singularity {
        script: b"ring r=32003,(x,y),ds;\nnoether=x^10;\npoly f=x^4+y^4+x^2*y^2;\nmilnor(f);\ntjurina(f);\n",
        numbers: b"1 milnor f\nmilnor 9\n2 tjurina f\ntjurina 9\n",
    },
    // J10
    Singularity {
        script: b"ring r=32003,(x,y),ds;\nnoether=x^11;\npoly f=x^3+x^2*y^2+y^6;\nmilnor(f);\ntjurina(f);\n",
        numbers: b"1 milnor f\nmilnor 10\n2 tjurina f\ntjurina 10\n",
    },
    // T237
    Singularity {
        script: b"ring r=32003,(x,y,z),ds;\nnoether=x^12;\npoly f=x^2+y^3+z^7+x*y*z;\nmilnor(f);\ntjurina(f);\n",
        numbers: b"1 milnor f\nmilnor 11\n2 tjurina f\ntjurina 10\n",
    },
    // T245
    Singularity {
        script: b"ring r=32003,(x,y,z),ds;\nnoether=x^11;\npoly f=x^2+y^4+z^5+x*y*z;\nmilnor(f);\ntjurina(f);\n",
        numbers: b"1 milnor f\nmilnor 10\n2 tjurina f\ntjurina 9\n",
    },
    // T334
    Singularity {
        script: b"ring r=32003,(x,y,z),ds;\nnoether=x^10;\npoly f=x^3+y^3+z^4+x*y*z;\nmilnor(f);\ntjurina(f);\n",
        numbers: b"1 milnor f\nmilnor 9\n2 tjurina f\ntjurina 8\n",
    },
    // T345
    Singularity {
        script: b"ring r=32003,(x,y,z),ds;\nnoether=x^12;\npoly f=x^3+y^4+z^5+x*y*z;\nmilnor(f);\ntjurina(f);\n",
        numbers: b"1 milnor f\nmilnor 11\n2 tjurina f\ntjurina 10\n",
    },
    // T456
    Singularity {
        script: b"ring r=32003,(x,y,z),ds;\nnoether=x^15;\npoly f=x^4+y^5+z^6+x*y*z;\nmilnor(f);\ntjurina(f);\n",
        numbers: b"1 milnor f\nmilnor 14\n2 tjurina f\ntjurina 13\n",
    },
    // E12
    Singularity {
        script: b"ring r=32003,(x,y),ds;\nnoether=x^13;\npoly f=x^3+y^7;\nmilnor(f);\ntjurina(f);\n",
        numbers: b"1 milnor f\nmilnor 12\n2 tjurina f\ntjurina 12\n",
    },
    // E13
    Singularity {
        script: b"ring r=32003,(x,y),ds;\nnoether=x^14;\npoly f=x^3+x*y^5;\nmilnor(f);\ntjurina(f);\n",
        numbers: b"1 milnor f\nmilnor 13\n2 tjurina f\ntjurina 13\n",
    },
    // E14
    Singularity {
        script: b"ring r=32003,(x,y),ds;\nnoether=x^15;\npoly f=x^3+y^8;\nmilnor(f);\ntjurina(f);\n",
        numbers: b"1 milnor f\nmilnor 14\n2 tjurina f\ntjurina 14\n",
    },
    // Z11
    Singularity {
        script: b"ring r=32003,(x,y),ds;\nnoether=x^12;\npoly f=x^3*y+y^5;\nmilnor(f);\ntjurina(f);\n",
        numbers: b"1 milnor f\nmilnor 11\n2 tjurina f\ntjurina 11\n",
    },
    // Z12
    Singularity {
        script: b"ring r=32003,(x,y),ds;\nnoether=x^13;\npoly f=x^3*y+x*y^4;\nmilnor(f);\ntjurina(f);\n",
        numbers: b"1 milnor f\nmilnor 12\n2 tjurina f\ntjurina 12\n",
    },
    // Z13
    Singularity {
        script: b"ring r=32003,(x,y),ds;\nnoether=x^14;\npoly f=x^3*y+y^6;\nmilnor(f);\ntjurina(f);\n",
        numbers: b"1 milnor f\nmilnor 13\n2 tjurina f\ntjurina 13\n",
    },
    // W12
    Singularity {
        script: b"ring r=32003,(x,y),ds;\nnoether=x^13;\npoly f=x^4+y^5;\nmilnor(f);\ntjurina(f);\n",
        numbers: b"1 milnor f\nmilnor 12\n2 tjurina f\ntjurina 12\n",
    },
    // W13
    Singularity {
        script: b"ring r=32003,(x,y),ds;\nnoether=x^14;\npoly f=x^4+x*y^4;\nmilnor(f);\ntjurina(f);\n",
        numbers: b"1 milnor f\nmilnor 13\n2 tjurina f\ntjurina 13\n",
    },
    // Q10
    Singularity {
        script: b"ring r=32003,(x,y,z),ds;\nnoether=x^11;\npoly f=x^3+y^4+y*z^2;\nmilnor(f);\ntjurina(f);\n",
        numbers: b"1 milnor f\nmilnor 10\n2 tjurina f\ntjurina 10\n",
    },
    // Q11
    Singularity {
        script: b"ring r=32003,(x,y,z),ds;\nnoether=x^12;\npoly f=x^3+y^2*z+x*z^3;\nmilnor(f);\ntjurina(f);\n",
        numbers: b"1 milnor f\nmilnor 11\n2 tjurina f\ntjurina 11\n",
    },
    // Q12
    Singularity {
        script: b"ring r=32003,(x,y,z),ds;\nnoether=x^13;\npoly f=x^3+y^5+y*z^2;\nmilnor(f);\ntjurina(f);\n",
        numbers: b"1 milnor f\nmilnor 12\n2 tjurina f\ntjurina 12\n",
    },
    // S11
    Singularity {
        script: b"ring r=32003,(x,y,z),ds;\nnoether=x^12;\npoly f=x^4+y^2*z+x*z^2;\nmilnor(f);\ntjurina(f);\n",
        numbers: b"1 milnor f\nmilnor 11\n2 tjurina f\ntjurina 11\n",
    },
    // S12
    Singularity {
        script: b"ring r=32003,(x,y,z),ds;\nnoether=x^13;\npoly f=x^2*y+y^2*z+x*z^3;\nmilnor(f);\ntjurina(f);\n",
        numbers: b"1 milnor f\nmilnor 12\n2 tjurina f\ntjurina 12\n",
    },
    // U12
    Singularity {
        script: b"ring r=32003,(x,y,z),ds;\nnoether=x^13;\npoly f=x^3+y^3+z^4;\nmilnor(f);\ntjurina(f);\n",
        numbers: b"1 milnor f\nmilnor 12\n2 tjurina f\ntjurina 12\n",
    },
];

#[test]
fn milnor_and_tjurina_numbers(rt: HostRuntime) -> Result<(), Fail> {
    for one in &SINGULARITIES {
        assert!(rt; is_answered(&rt, rt.alloc(), one.script, Status::Fits, one.numbers)?);
    }
    Ok(())
}
