//! Programs and machines of several tests.

/// One core raises a word by one, and puts it out.
pub(crate) const RAISE: &[u8] =
    b".entry 0, s\ns: li r1, 4096\npinc r1, 0\npfence\nld r2, r1, 0\nout r2\nhalt\n";

/// What `RAISE` writes.
pub(crate) const RAISED: &[u8] = b"out 0 1\ncore 0 halt\nstatus 0\n";

/// The trace of `RAISE`, by whatever schedule, of fourteen lines.
pub(crate) const RAISE_TRACE: &[u8] =
    b"peisim-trace 1 mesi\n0.0 issue 0 1 pinc 4096 0 0 0 0\n0.0 fbegin\n0.1 enter 0\n\
0.1 place 0 memory\n0.1 seal 0 0\n0.1 act 0 0 0 0\n0.1 leave 0\n0.0 fend\n0.0 fill 64\n0.0 grante 64\n\
0.0 load 4096 1\n0.0 out 1\n0.0 end halt\n";

/// Each core raises the same word three times.
pub(crate) const RAISE_BY_ALL: &[u8] =
    b".entry *, s\n.show 4096, 1\ns: li r1, 4096\npinc r1, 0\npinc r1, 0\npinc r1, 0\npfence\nhalt\n";

/// Each core raises the same word a hundred times.
pub(crate) const RAISE_HUNDRED: &[u8] =
    b".entry *, s\ns: li r1, 4096\nli r2, 100\nloop: pinc r1, 0\naddi r2, r2, -1\n\
bne r2, r0, loop\npfence\nhalt\n";

/// Two cores raise words of two blocks, 64 and 67.
pub(crate) const RAISE_APART: &[u8] =
    b".entry 0, a\n.entry 1, b\n.show 4096, 1\n.show 4288, 1\na: li r1, 4096\npinc r1, 0\nhalt\n\
b: li r1, 4288\npinc r1, 0\nhalt\n";

/// What `RAISE_APART` writes.
pub(crate) const RAISED_APART: &[u8] =
    b"core 0 halt\ncore 1 halt\nmem 4096 1\nmem 4288 1\nstatus 0\n";

/// Two cores with private caches of one line, above one or two lines, with one entry of each buffer and two entries of the
/// directory.
pub(crate) const NARROW: [&str; 6] = [
    "cores=2\nblocks=128\nl1_sets=1\nl1_ways=1\nllc_sets=1\nllc_ways=1\nvaults=1\nqueue=1\ndirectory=2\nbuffer=1\n",
    "cores=2\nblocks=128\nl1_sets=1\nl1_ways=1\nllc_sets=1\nllc_ways=1\nvaults=1\nqueue=1\ndirectory=2\nbuffer=1\n\
placement='host'\n",
    "cores=2\nblocks=128\nl1_sets=1\nl1_ways=1\nllc_sets=1\nllc_ways=1\nvaults=1\nqueue=1\ndirectory=2\nbuffer=1\n\
placement='memory'\n",
    "cores=2\nblocks=128\nl1_sets=1\nl1_ways=1\nllc_sets=1\nllc_ways=2\nvaults=1\nqueue=1\ndirectory=2\nbuffer=1\n",
    "cores=2\nblocks=128\nl1_sets=1\nl1_ways=1\nllc_sets=1\nllc_ways=2\nvaults=1\nqueue=1\ndirectory=2\nbuffer=1\n\
placement='host'\n",
    "cores=2\nblocks=128\nl1_sets=1\nl1_ways=1\nllc_sets=1\nllc_ways=2\nvaults=1\nqueue=1\ndirectory=2\nbuffer=1\n\
placement='memory'\n",
];
