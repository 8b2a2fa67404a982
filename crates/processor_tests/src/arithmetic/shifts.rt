// Rows of shifts, rotations and double shifts. Made on 2026-12-01 on a processor of the x86-64 family by
// `cc -O1 -mno-red-zone -o vectors tests/vectors.c` and, for each table, `./vectors NAME` with its name in small letters; gcc 12.2.0.

/// Shifts and rotations: operand, count, flags before, result, flags after.
pub(super) const SHIFT: &str = "\
Rol 8 16 0 892 16 892
Rol 16 438 1 8d7 870 d6
Rol 32 10 2 807 40 806
Rol 8 ae 3 47 75 47
Rol 16 51a2 4 12 1a25 13
Rol 32 4350c03b 5 82 6a180768 82
Rol 8 1 6 2 40 2
Rol 16 1 7 7 80 6
Rol 32 2 8 8d7 200 8d6
Rol 8 0 9 2 0 2
Rol 16 54a4 a 8d7 9152 8d6
Rol 32 f b 46 7800 46
Rol 8 80 c 842 8 842
Rol 16 cb55 d d6 b96a d6
Rol 32 cdc67491 e 12 9d247371 13
Rol 8 f f 2 87 3
Rol 16 7fff 10 8d7 7fff 8d7
Rol 32 940289fb 11 2 13f72805 3
Rol 8 f 12 8d7 3c 8d6
Rol 16 4633 13 893 319a 892
Rol 32 5a79055e 14 8d7 55e5a790 8d6
Rol 8 eb 15 42 7d 43
Rol 16 14b2 16 882 2c85 883
Rol 32 80629d80 17 8d7 c040314e 8d6
Rol 8 39 18 83 39 83
Rol 16 1e48 19 2 903c 2
Rol 32 8000000f 1a 82 3e000000 82
Rol 8 34 1b 2 a1 3
Rol 16 1 1c 92 1000 92
Rol 32 80000001 1d 816 30000000 816
Rol 8 73 1e 16 dc 16
Rol 16 a72 1f 2 539 3
Rol 32 ffffffff 20 8d7 ffffffff 8d7
Rol 8 1 21 812 2 12
Ror 16 85fb 0 2 85fb 2
Ror 32 360b396 1 2 1b059cb 2
Ror 8 d6 2 2 b5 3
Ror 16 ffff 3 6 ffff 7
Ror 32 8000000f 4 892 f8000000 893
Ror 8 8f 5 8c2 7c 8c2
Ror 16 0 6 896 0 896
Ror 32 6aecd45f 7 8d6 bed5d9a8 8d7
Ror 8 0 8 2 0 2
Ror 16 f 9 2 780 2
Ror 32 1 a 2 400000 2
Ror 8 1 b 2 20 2
Ror 16 8001 c 8d7 18 8d6
Ror 32 10 d 8d7 800000 8d6
Ror 8 ff e 2 ff 3
Ror 16 f f 8d7 1e 8d6
Ror 32 4d5a4149 10 2 41494d5a 2
Ror 8 8f 11 803 c7 803
Ror 16 f 12 2 c003 3
Ror 32 c9976372 13 47 ec6e5932 47
Ror 8 cb 14 8d7 bc 8d7
Ror 16 c617 15 802 be30 803
Ror 32 80000001 16 8d7 600 8d6
Ror 8 3 17 8c2 6 8c2
Ror 16 1d99 18 2 991d 3
Ror 32 0 19 2 0 2
Ror 8 8f 1a 8d7 e3 8d7
Ror 16 8001 1b 8d7 30 8d6
Ror 32 afb26edf 1c 2 fb26edfa 3
Ror 8 8f 1d 2 7c 2
Ror 16 d55b 1e 2 556f 2
Ror 32 6f718249 1f 8d7 dee30492 8d7
Ror 8 46 20 8c7 46 8c7
Ror 16 b777 21 8d3 dbbb d3
Rcl 32 ffffffff 0 12 ffffffff 12
Rcl 8 2 1 47 5 46
Rcl 16 21f8 2 886 87e0 886
Rcl 32 722b9e31 3 807 915cf18d 807
Rcl 8 81 4 8d7 1c 8d6
Rcl 16 fffe 5 806 ffcf 807
Rcl 32 0 6 887 20 886
Rcl 8 8f 7 8d7 e3 8d7
Rcl 16 fffe 8 8d7 feff 8d7
Rcl 32 d31d960a 9 806 3b2c14d3 806
Rcl 8 0 a 8d7 1 8d6
Rcl 16 8000 b 893 600 892
Rcl 32 80000001 c c6 1400 c6
Rcl 8 ee d 42 e7 42
Rcl 16 7fff e 2 cfff 3
Rcl 32 3e8d7ba2 f d2 bdd10fa3 d2
Rcl 8 6a 10 8d7 5a 8d7
Rcl 16 10 11 92 10 92
Rcl 32 5e0183ab 12 2 eacbc03 2
Rcl 8 2 13 806 4 806
Rcl 16 1264 14 2 9320 2
Rcl 32 f 15 8d2 1e00000 8d2
Rcl 8 8 16 897 88 896
Rcl 16 800f 17 8d7 3f0 8d6
Rcl 32 a7705265 18 d3 65d3b829 d2
Rcl 8 6c 19 47 5b 46
Rcl 16 fc8d 1a 8d7 1bfc 8d7
Rcl 32 80000000 1b 2 2000000 2
Rcl 8 f 1c 2 1e 2
Rcl 16 8f0d 1d 893 dc78 892
Rcl 32 ff31b7a5 1e 82 5fe636f4 83
Rcl 8 3 1f 8d7 38 8d6
Rcl 16 a63f 20 8d7 a63f 8d7
Rcl 32 0 21 53 1 52
Rcr 8 8f 0 47 8f 47
Rcr 16 5c91 1 56 2e48 57
Rcr 32 da1e67d1 2 2 b68799f4 2
Rcr 8 6f 3 8d7 ed 8d7
Rcr 16 800f 4 8d7 f800 8d7
Rcr 32 cee4b74f 5 8d7 fe7725ba 8d6
Rcr 8 37 6 8c3 bc 8c3
Rcr 16 b6de 7 8d7 7b6d 8d7
Rcr 32 a0c19a79 8 92 f2a0c19a 92
Rcr 8 1 9 882 1 882
Rcr 16 fa17 a 2 bbe 3
Rcr 32 47bcce73 b 8d7 9ce8f799 8d7
Rcr 8 2b c 2 c5 2
Rcr 16 7fff d 846 fff3 847
Rcr 32 80000000 e 8d7 60000 8d6
Rcr 8 41 f 8d7 d 8d6
Rcr 16 d098 10 93 a131 93
Rcr 32 b631f04d 11 8c3 f04ddb18 8c3
Rcr 8 76 12 2 76 2
Rcr 16 2 13 817 4000 817
Rcr 32 4ffa0b1c 14 816 416384ff 817
Rcr 8 10 15 8d7 22 8d6
Rcr 16 d635 16 882 56b1 883
Rcr 32 8000000f 17 93 3f00 92
Rcr 8 1 18 2 8 2
Rcr 16 f 19 97 1f00 96
Rcr 32 80000000 1a 802 20 802
Rcr 8 d1 1b 57 d1 57
Rcr 16 9c4 1c 2 7101 2
Rcr 32 1 1d 8d7 18 8d6
Rcr 8 fe 1e 93 bf 93
Rcr 16 6925 1f 46 4929 47
Rcr 32 1 20 8d6 1 8d6
Rcr 8 fe 21 2 7f 802
Shl 16 0 0 896 0 896
Shl 32 493b1ca5 1 87 9276394a 882
Shl 8 9 2 887 24 806
Shl 16 c191 3 883 c88 806
Shl 32 199227ba 4 802 99227ba0 887
Shl 8 b9 5 8d7 20 813
Shl 16 bc92 6 83 2480 3
Shl 32 a3808fd3 7 8d7 c047e980 893
Shl 8 3 8 8c2 0 847
Shl 16 981e 9 3 3c00 6
Shl 32 ba5d9b7 a 2 9766dc00 86
Shl 8 fe b 2 0 46
Shl 16 2 c 8d7 2000 816
Shl 32 447131f1 d 856 263e2000 816
Shl 8 16 e 8d7 0 856
Shl 16 8001 f 8c7 8000 886
Shl 32 f 10 2 f0000 6
Shl 8 8 11 882 0 846
Shl 16 564d 12 6 0 46
Shl 32 fffffffe 13 8d7 fff00000 897
Shl 8 d6 14 812 0 856
Shl 16 10 15 8d7 0 856
Shl 32 7fffffff 16 883 ffc00000 887
Shl 8 ea 17 2 0 46
Shl 16 ffff 18 42 0 46
Shl 32 f 19 802 1e000000 806
Shl 8 8f 1a 8d7 0 856
Shl 16 8000 1b 886 0 846
Shl 32 ffc678a0 1c 17 0 56
Shl 8 2 1d 6 0 46
Shl 16 fffe 1e 2 0 46
Shl 32 283007b4 1f 2 0 46
Shl 8 8f 20 53 8f 53
Shl 16 27d2 21 2 4fa4 2
Shr 32 448d0dec 0 7 448d0dec 7
Shr 8 f 1 2 7 3
Shr 16 a558 2 8c6 2956 806
Shr 32 2 3 42 0 46
Shr 8 2 4 8d7 0 856
Shr 16 2c61 5 896 163 816
Shr 32 1 6 2 0 46
Shr 8 7f 7 2 0 47
Shr 16 2a3c 8 3 2a 2
Shr 32 2 9 2 0 46
Shr 8 7f a 2 0 46
Shr 16 0 b 8d7 0 856
Shr 32 69541ac1 c 2 69541 7
Shr 8 8f d 8d7 0 856
Shr 16 6dc4 e 2 1 3
Shr 32 7da156cc f 46 fb42 7
Shr 8 ac 10 c6 0 46
Shr 16 1 11 2 0 46
Shr 32 d1f95cfb 12 8d7 347e 816
Shr 8 8f 13 2 0 46
Shr 16 2 14 17 0 56
Shr 32 7fffffff 15 8d3 3ff 817
Shr 8 51 16 8d7 0 856
Shr 16 9da0 17 883 0 846
Shr 32 fffffffe 18 883 ff 807
Shr 8 39 19 2 0 46
Shr 16 4579 1a 842 0 846
Shr 32 80000001 1b 812 10 812
Shr 8 84 1c 8d7 0 856
Shr 16 f66 1d 883 0 846
Shr 32 fffffffe 1e 2 3 7
Shr 8 80 1f 53 0 56
Shr 16 fe51 20 2 fe51 2
Shr 32 2 21 897 1 12
Sar 8 bd 0 883 bd 883
Sar 16 941e 1 882 ca0f 86
Sar 32 84322ef5 2 882 e10c8bbd 886
Sar 8 7f 3 8d7 f 817
Sar 16 2533 4 2 253 6
Sar 32 f 5 2 0 46
Sar 8 81 6 8d7 fe 892
Sar 16 4f20 7 92 9e 12
Sar 32 53bbb154 8 43 53bbb1 6
Sar 8 f 9 2 0 46
Sar 16 b5ff a 8c3 ffed 886
Sar 32 80000001 b 2 fff00000 86
Sar 8 17 c 2 0 46
Sar 16 800f d 843 fffc 886
Sar 32 b469fb55 e d2 fffed1a7 93
Sar 8 f f 53 0 56
Sar 16 10 10 6 0 46
Sar 32 37662659 11 8d7 1bb3 812
Sar 8 10 12 83 0 46
Sar 16 8298 13 2 ffff 87
Sar 32 7fffffff 14 83 7ff 7
Sar 8 75 15 2 0 46
Sar 16 5375 16 d3 0 56
Sar 32 ec3c28b0 17 896 ffffffd8 896
Sar 8 7f 18 8d2 0 856
Sar 16 4606 19 7 0 46
Sar 32 a0f0d505 1a 8d7 ffffffe8 896
Sar 8 30 1b 8d7 0 856
Sar 16 b5ae 1c 2 ffff 87
Sar 32 2 1d c2 0 46
Sar 8 e 1e 8d7 0 856
Sar 16 7fff 1f 43 0 46
Sar 32 ac690e61 20 882 ac690e61 882
Sar 8 4c 21 803 26 2
";

/// Double shifts: operand, what fills it, count, flags before, result, flags after.
pub(super) const DOUBLE_SHIFT: &str = "\
Shld 16 8116 1 10 2 1 2
Shld 16 438 1 0 2 438 2
Shld 32 f 80000001 1 897 1f 812
Shld 16 7fff 51a2 2 12 fffd 93
Shld 32 4350c03b 2d61558a 3 8d7 1a8601d9 812
Shld 16 7753 10 4 893 7530 817
Shld 32 8000000f 29de7e00 5 2 1e5 2
Shld 16 54a4 f 6 2 2900 7
Shld 32 f bf75874 7 842 785 802
Shld 16 cb55 7dc 8 2 5507 3
Shld 32 74916432 fffffffe 9 842 22c865ff 807
Shld 16 7fff fffe a 842 ffff 887
Shld 32 f 0 b 813 7800 816
Shld 16 6e84 800f c 8d7 4800 816
Shld 32 71217feb 484c0068 d 92 2ffd6909 16
Shld 16 fffe 8062 e 2 a018 87
Shld 32 1 4c39fcaf f 52 a61c 12
Shld 16 fffe 27d 10 82 27d 6
Shld 32 79a57434 4fdae28 11 92 e86809fb 92
Shld 16 8001 4c3e 12 2 8001 2
Shld 32 947323b7 903cd604 13 2 1dbc81e6 3
Shld 16 39e5 6fa5 14 892 39e5 892
Shld 32 b1f8ac33 fffffffe 15 96 867fffff 97
Shld 16 a643 b415 16 8c2 a643 8c2
Shld 32 9da9c1b3 fc0acc9a 17 8d7 d9fe0566 896
Shld 16 a622 3083 18 896 a622 896
Shld 32 6aecd45f 2 19 86 be000000 86
Shld 16 66 6317 1a 2 66 2
Shld 32 1 f3dd16e3 1b 8d7 f9ee8b7 816
Shld 16 10 7fff 1c 8d7 10 8d7
Shld 32 9abd22c6 1 1d 892 c0000000 896
Shld 16 800f 2823 1e 8d7 800f 8d7
Shld 32 89e45948 10 1f 47 8 2
Shld 16 62cb 8001 20 c3 62cb c3
Shld 32 ce20f297 8d3140ea 21 8d7 9c41e52f 893
Shrd 16 2 1 10 2 1 2
Shrd 32 ffffffff 1c8bd7ca 0 2 ffffffff 2
Shrd 16 588f 7fff 1 8d7 ac47 897
Shrd 32 7fffffff fffffffe 2 856 9fffffff 897
Shrd 16 800f a92b 3 c2 7001 3
Shrd 32 1 80000001 4 8d7 10000000 816
Shrd 16 5d88 1 5 8d7 aec 812
Shrd 32 8000000f ffffffff 6 8d7 fe000000 896
Shrd 16 4f24 9a91 7 47 229e 2
Shrd 32 343421f8 7fffffff 8 2 ff343421 87
Shrd 16 9e31 d907 9 883 83cf 886
Shrd 32 f ffffffff a 8d3 ffc00000 896
Shrd 16 9d4c 10 b 2 213 3
Shrd 32 80000000 c7592bb8 c 8d7 bb880000 896
Shrd 16 6090 1eb9 d 8d7 f5cb 892
Shrd 32 80000000 fe489bb3 e 8d7 6ece0000 816
Shrd 16 800f 800f f 8c6 1f 802
Shrd 32 80000001 5e9d6b7c 10 2 6b7c8000 6
Shrd 16 7ba2 8000 11 8c6 7ba2 8c6
Shrd 32 472584ab 4657ef97 12 2 fbe5d1c9 86
Shrd 16 83ab f504 13 806 83ab 806
Shrd 32 92fb1264 37f9c015 14 8d2 9c01592f 893
Shrd 16 6c08 fffe 15 883 6c08 883
Shrd 32 ffffffff 5265478f 16 812 951e3fff 897
Shrd 16 e23b f 17 887 e23b 887
Shrd 32 1 0 18 852 0 856
Shrd 16 8f0d f8b3 19 87 8f0d 87
Shrd 32 7fffffff 5a50b49e 1a c6 942d279f 87
Shrd 16 0 800f 1b 56 0 56
Shrd 32 7fffffff 8000000f 1c 2 f7 3
Shrd 16 0 fe3 1d 2 0 2
Shrd 32 d0bada1e 7fffffff 1e 847 ffffffff 886
Shrd 16 0 a774 1f 2 0 2
Shrd 32 f 1d9fcc37 20 8c3 f 8c3
Shrd 16 b6de 0 21 8d7 5b6f 816
";
