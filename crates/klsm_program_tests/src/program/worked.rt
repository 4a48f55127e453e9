//! A script of one thread, and its answers.

pub const SCRIPT: &[u8] = b"0,i,5,50\n0,i,3,30\n0,i,9,90\n0,d,,\n0,d,,\n0,d,,\n0,d,,\n";

pub const ANSWERS: &[u8] = b"\
0 i 5 0.0
0 i 3 0.1
0 i 9 0.2
0 d 3 0.1 load 30 skip 0
0 d 5 0.0 load 50 skip 0
0 d 9 0.2 load 90 skip 0
0 d none
max skip 0 bound 64
";
