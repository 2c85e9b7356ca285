// The parabolas by which a guess at a root begins.

// The parabola for 1 / √z, where i is the last bit of a number's exponent field and the first four of
// its fraction, and z is the number scaled by a power of 4 to be from 1 to 4. For x, which goes from 0
// to 1 as the rest of the fraction does, it is a - x * (b - c * x): the highest 32 bits are a, in units
// of 2^-32, the lowest 16 c, in units of 2^-23, and the 20 above those b, in units of 2^-24.
pub fn parabola(i: u64) -> u64 {
    match i {
        0 => 0xb504_ac25_a651_1f73,
        1 => 0xaf9d_1255_28c8_1b25,
        2 => 0xaaaa_6ec4_bc67_179f,
        3 => 0xa61d_2764_5e11_14b5,
        4 => 0xa1e8_6694_0b5c_1246,
        5 => 0x9e01_80d3_c25d_1039,
        6 => 0x9a5f_82a3_818f_0e7a,
        7 => 0x96fa_d903_47b6_0cfd,
        8 => 0x93cd_0ec3_13d1_0bb4,
        9 => 0x90d0_98c2_e50f_0a96,
        10 => 0x8e00_aca2_babf_099e,
        11 => 0x8b59_2092_944f_08c4,
        12 => 0x88d6_5132_7146_0804,
        13 => 0x8675_0c92_513b_075b,
        14 => 0x8432_8112_33d5_06c4,
        15 => 0x820c_2f12_18c8_063e,
        16 => 0xffff_9b87_fd67_2c79,
        17 => 0xf85a_e687_4bde_2663,
        18 => 0xf15b_9a36_b298_2168,
        19 => 0xeaeb_a646_2d30_1d49,
        20 => 0xe4f8_e3e5_b838_19d8,
        21 => 0xdf74_3c75_50fd_16f1,
        22 => 0xda51_0704_f556_147a,
        23 => 0xd584_8d84_a387_125e,
        24 => 0xd105_ae24_5a24_108c,
        25 => 0xcccc_91b4_1803_0ef9,
        26 => 0xc8d2_71f3_dc2d_0d9a,
        27 => 0xc511_6b93_a5d2_0c66,
        28 => 0xc184_5973_7445_0b56,
        29 => 0xbe26_b6e3_46f4_0a67,
        30 => 0xbaf4_8743_1d61_0992,
        31 => 0xb7ea_4212_f720_08d4,
        _ => 0,
    }
}
