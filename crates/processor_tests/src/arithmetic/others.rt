// Rows of products, quotients, bit tests and bit scans. Made on 2026-12-01 on a processor of the x86-64 family by
// `cc -O1 -mno-red-zone -o vectors tests/vectors.c` and, for each table, `./vectors NAME` with its name in small letters; gcc 12.2.0.

/// Multiplication: two operands, flags before, low half, high half, flags after.
pub(super) const MULTIPLY: &str = "\
Mul 8 16 1 2 16 0 2
Mul 8 38 1 2 38 0 2
Mul 8 f 81 897 8f 7 897
Mul 8 7f a2 12 5e 50 813
Mul 8 3b 8a 8d7 ce 1f 8d7
Mul 8 53 10 893 30 5 893
Mul 16 800f 7e00 2 6200 3f07 803
Mul 16 54a4 f 2 f59c 4 803
Mul 16 f 5874 842 2ecc 5 843
Mul 16 cb55 7dc 2 100c 63e 803
Mul 16 6432 fffe 842 379c 6431 843
Mul 16 7fff fffe 842 2 7ffe 843
Mul 32 f 0 813 0 0 12
Mul 32 6e9b6e84 8000000f 8d7 7b1b79bc 374db748 8d7
Mul 32 71217feb 484c0068 92 75ff778 1ff3021a 893
Mul 32 fffffffe c5d48062 2 7456ff3c c5d48060 803
Mul 32 1 4c39fcaf 52 4c39fcaf 0 52
Mul 32 fffffffe d30f027d 82 59e1fb06 d30f027b 883
Imul 8 34 28 92 20 8 893
Imul 8 81 3e 2 3e e1 803
Imul 8 b7 4 2 dc fe 803
Imul 8 e5 a5 892 99 9 893
Imul 8 33 fe 96 9a ff 96
Imul 8 43 15 8c2 7f 5 8c3
Imul 16 c1b3 cc9a 8d7 29ae c82 8d7
Imul 16 a622 3083 896 6366 eef8 897
Imul 16 d45f 2 86 a8be ffff 86
Imul 16 66 6317 2 7b2a 27 803
Imul 16 1 16e3 8d7 16e3 0 d6
Imul 16 10 7fff 8d7 fff0 7 8d7
Imul 32 9abd22c6 1 892 9abd22c6 ffffffff 92
Imul 32 8000000f c2902823 8d7 e6725a0d 1eb7ebea 8d7
Imul 32 89e45948 10 47 9e459480 fffffff8 847
Imul 32 ab1662cb 80000001 c3 2b1662cb 2a74ce9a 8c3
Imul 32 ce20f297 8d3140ea 8d7 40aa7e06 165d9aaf 8d7
Imul 32 2 1 2 2 0 2
";

/// Division: high half, low half, divisor, whether there is a quotient, quotient, remainder.
pub(super) const DIVIDE: &str = "\
Div 8 16 1 62 1 39 2f
Div 8 1 41 81 1 2 3f
Div 8 d fe ff 1 e c
Div 8 1a 42 fe 1 1a 76
Div 8 53 10 99 1 8a 96
Div 8 0 84 a4 1 0 84
Div 8 f f 74 1 21 1b
Div 8 b6 1 dc 1 d3 ad
Div 16 6432 fffe f 0 0 0
Div 16 79f fffe d60 1 91f1 89e
Div 16 f 4633 ffff 1 f 4642
Div 16 0 2 0 0 0 0
Div 16 59e6 4b73 c5d4 1 7455 8c0f
Div 16 0 fcaf 0 0 0 0
Div 16 fffe 27d 488 0 0 0
Div 16 10 ae28 819a 1 20 7ae8
Div 32 8000000f 10 95a09473 1 daff5d92 87f08f7a
Div 32 903cd604 a72f5a4 ffffffff 1 903cd604 9aafcba8
Div 32 1 3d901a30 ac3385fb 1 1 915c9435
Div 32 360b396 ddc8a643 7b24b415 1 7059bce 75ce065d
Div 32 59e26206 8000000f fc0acc9a 1 5b4bb6f5 ed16b4ad
Div 32 1977a622 127f3083 4eb3aa9e 1 52d701eb 3934f379
Div 32 59f74792 ffe97bb 7a681f4d 1 bc275958 78971043
Div 32 e7a36317 808d4e56 f3dd16e3 1 f32a8aab 334aa6b5
Idiv 8 ff 10 7f 1 ff 8f
Idiv 8 ff 1 b8 1 3 d9
Idiv 8 ff f 97 1 2 e1
Idiv 8 0 cb 81 1 ff 4c
Idiv 8 0 e6 fe 1 8d 0
Idiv 8 ff 2b 8f 1 1 9c
Idiv 8 ff ff 81 1 0 ff
Idiv 8 fe 74 8f 1 3 c7
Idiv 16 0 6f71 8001 1 0 6f71
Idiv 16 0 1 fffe 1 0 1
Idiv 16 ffff 4f24 9a91 1 1 b493
Idiv 16 0 8593 6498 1 1 20fb
Idiv 16 ffff ea81 f 1 fe92 fff3
Idiv 16 dcfb 9d4c 10 0 0 0
Idiv 16 ffff 2bb8 ffff 0 0 0
Idiv 16 0 ffff fe48 1 ff6c 19f
Idiv 32 ffffffff 8000000f f3fe9ee 1 fffffff8 f9ff4f7f
Idiv 32 ffffffff 80383e8d a95f0728 1 1 d6d93765
Idiv 32 766a4725 10 8000000f 0 0 0
Idiv 32 5e0183ab 2e8ff504 8000000f 0 0 0
Idiv 32 92fb1264 37f9c015 ffffffff 0 0 0
Idiv 32 0 fffffffe 1 0 0 0
Idiv 32 ffffffff 8000000f 80000001 1 0 8000000f
Idiv 32 0 80000000 fc8daa69 1 ffffffdb 79a12d
";

/// Bit tests: operand, place, flags before, result, flags after.
pub(super) const BIT: &str = "\
Bt 16 8116 73 2 8116 2
Bt 16 8e62 38 8d7 8e62 8d6
Bt 16 10 37 8d7 10 8d6
Bt 16 8001 63 807 8001 806
Bt 16 fffe f 6 fffe 7
Bt 32 611a4350 3b 82 611a4350 82
Bt 32 1 4c 3 1 2
Bt 32 f52df999 ab 8d7 f52df999 8d7
Bt 32 29de7e00 84 2 29de7e00 2
Bt 32 54a404e9 79 2 54a404e9 2
Bts 16 f 44 92 1f 92
Bts 16 25b6 69 8d7 27b6 8d6
Bts 16 7dc 5c 12 17dc 12
Bts 16 fffe cf 43 fffe 43
Bts 16 f e2 842 f 843
Bts 32 f 45 2 2f 2
Bts 32 fffffffe 3b 886 fffffffe 887
Bts 32 8000000f 91 2 8002000f 2
Bts 32 0 32 2 40000 2
Bts 32 59e6a936 b2 882 59e6a936 883
Btr 16 9d80 f5 2 9d80 2
Btr 16 fcaf 27 8d7 fc2f 8d7
Btr 16 1e48 74 92 1e48 92
Btr 16 7fff e4 8d7 7fef 8d7
Btr 16 4fd 28 92 4fd 92
Btr 32 80000001 26 c2 80000001 c2
Btr 32 947323b7 9a 2 907323b7 3
Btr 32 14f00a72 a4 8d7 14f00a62 8d7
Btr 32 4b096fa5 13 812 4b016fa5 813
Btr 32 ac3385fb a4 96 ac3385eb 97
Btc 16 a643 d6 2 a603 3
Btc 16 ffff 72 883 fffb 883
Btc 16 2 a 842 402 842
Btc 16 10 e0 886 11 886
Btc 16 fffe 74 2 ffee 3
Btc 32 1 14 86 100001 86
Btc 32 1f4d0066 cc 8c2 1f4d1066 8c2
Btc 32 1 c 8d7 1001 8d6
Btc 32 10 2d 852 2010 852
Btc 32 7fffffff 65 2 7fffffdf 3
";

/// Bit scans: source, target before, flags before, target after, flags after.
pub(super) const SCAN: &str = "\
Bsf 16 8116 1 2 1 2
Bsf 16 438 1 2 3 2
Bsf 16 f 8001 897 0 897
Bsf 16 7fff 51a2 12 0 12
Bsf 16 c03b 558a 8d7 0 897
Bsf 16 7753 10 893 0 893
Bsf 32 8000000f 29de7e00 2 0 2
Bsf 32 df3054a4 f 2 2 2
Bsf 32 f bf75874 842 0 802
Bsf 32 9c69cb55 2db07dc 2 0 2
Bsf 32 74916432 fffffffe 842 1 802
Bsf 32 7fffffff fffffffe 842 0 802
Bsr 16 f 0 813 3 813
Bsr 16 6e84 800f 8d7 e 897
Bsr 16 7feb 68 92 e 92
Bsr 16 fffe 8062 2 f 2
Bsr 16 1 fcaf 52 0 12
Bsr 16 fffe 27d 82 f 82
Bsr 32 79a57434 4fdae28 92 1e 92
Bsr 32 80000001 f7774c3e 2 1f 2
Bsr 32 947323b7 903cd604 2 1f 2
Bsr 32 f5a439e5 4b096fa5 892 1f 892
Bsr 32 b1f8ac33 fffffffe 96 1f 96
Bsr 32 ddc8a643 7b24b415 8c2 1f 882
";
