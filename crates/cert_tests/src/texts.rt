//! Certificates that are accepted.

/// The partial derivatives of x^5+x^2*y^2+y^5, modulo degree 7.
pub(crate) const JACOBIAN: &str =
    "lstd-cert 1\nblock 1\np 32003\nvars x y\nD 6\ngens 2\n2*x*y^2+5*x^4\n2*x^2*y+5*y^4\nentries 4\nentry 0 gen 0\nread 0 28\npoly x*y^2-15999*x^4\nentry 1 gen 1\nread 1 28\npoly x^2*y-15999*y^4\nentry 2 pair 0 1\nread 2 28\npoly x^5-y^5\nentry 3 pair 1 2\nread 3 28\npoly y^6\nfits\nbasis 4\nx^2*y-15999*y^4\nx*y^2-15999*x^4\nx^5-y^5\ny^6\ncorner y^5\nstair 11 1 x y x^2 x*y y^2 x^3 y^3 x^4 y^4 y^5\nend 1\ndone 1\n";

/// x-x^2-y^3 and x: the run of the second one takes its own beginning from the intermediates.
pub(crate) const INTERMEDIATE: &str =
    "lstd-cert 1\nblock 1\np 32003\nvars x y\nD 4\ngens 2\nx-x^2-y^3\nx\nentries 2\nentry 0 gen 0\nread 0 15\npoly x-x^2-y^3\nentry 1 gen 1\nread 1 15\nread 1 15\nread 1 15\npoly y^3\nfits\nbasis 2\nx\ny^3\ncorner y^2\nstair 3 1 y y^2\nend 1\ndone 1\n";

/// x^2, y^2 and x^2+x*y+x^3: a reading has a corner that the entries it knew do not justify alone.
pub(crate) const OTHER_WORKER: &str =
    "lstd-cert 1\nblock 1\np 32003\nvars x y\nD 4\ngens 3\nx^2\ny^2\nx^2+x*y+x^3\nentries 3\nentry 0 gen 0\nread 0 15\npoly x^2\nentry 1 gen 1\nread 1 15\npoly y^2\nentry 2 gen 2\nread 1 5\nread 2 5\npoly x*y\nfits\nbasis 3\nx^2\nx*y\ny^2\ncorner y\nstair 3 1 x y\nend 1\ndone 1\n";

/// x^2 and x^3 modulo degree 4: no power of y is a lead, so the degree is too small.
pub(crate) const TOO_SMALL: &str =
    "lstd-cert 1\nblock 1\np 32003\nvars x y\nD 3\ngens 2\nx^2\nx^3\nentries 1\nentry 0 gen 0\nread 0 10\npoly x^2\ntoo small x*y^2\nend 1\ndone 1\n";

/// The last two, one after the other.
pub(crate) const TWO_BLOCKS: &str =
    "lstd-cert 1\nblock 1\np 32003\nvars x y\nD 3\ngens 2\nx^2\nx^3\nentries 1\nentry 0 gen 0\nread 0 10\npoly x^2\ntoo small x*y^2\nend 1\nblock 2\np 32003\nvars x y\nD 4\ngens 3\nx^2\ny^2\nx^2+x*y+x^3\nentries 3\nentry 0 gen 0\nread 0 15\npoly x^2\nentry 1 gen 1\nread 1 15\npoly y^2\nentry 2 gen 2\nread 1 5\nread 2 5\npoly x*y\nfits\nbasis 3\nx^2\nx*y\ny^2\ncorner y\nstair 3 1 x y\nend 2\ndone 2\n";
