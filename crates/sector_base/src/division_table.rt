//! The tables of the checksum.

// All sums of these states: of none, of the first, of the second, of both, and so on.
macro_rules! sums {
    ([$($sum:expr),*]) => { [$($sum),*] };
    ([$($sum:expr),*] $next:expr $(, $more:expr)*) => {
        sums!([$($sum,)* $($sum ^ $next),*] $($more),*)
    };
}

/// Of each table and byte the state that is left of the byte, divided eight times by the polynomial EDB88320 without input, and
/// eight times more for each table before.
pub static DIVIDED: [[u32; 256]; 8] = [
    sums!([0] 0x7707_3096, 0xEE0E_612C, 0x076D_C419, 0x0EDB_8832, 0x1DB7_1064, 0x3B6E_20C8, 0x76DC_4190, 0xEDB8_8320),
    sums!([0] 0x191B_3141, 0x3236_6282, 0x646C_C504, 0xC8D9_8A08, 0x4AC2_1251, 0x9584_24A2, 0xF079_4F05, 0x3B83_984B),
    sums!([0] 0x01C2_6A37, 0x0384_D46E, 0x0709_A8DC, 0x0E13_51B8, 0x1C26_A370, 0x384D_46E0, 0x709A_8DC0, 0xE135_1B80),
    sums!([0] 0xB8BC_6765, 0xAA09_C88B, 0x8F62_9757, 0xC5B4_28EF, 0x5019_579F, 0xA032_AF3E, 0x9B14_583D, 0xED59_B63B),
    sums!([0] 0x3D60_29B0, 0x7AC0_5360, 0xF580_A6C0, 0x3070_4BC1, 0x60E0_9782, 0xC1C1_2F04, 0x58F3_5849, 0xB1E6_B092),
    sums!([0] 0xCB5C_D3A5, 0x4DC8_A10B, 0x9B91_4216, 0xEC53_826D, 0x03D6_029B, 0x07AC_0536, 0x0F58_0A6C, 0x1EB0_14D8),
    sums!([0] 0xA677_0BB4, 0x979F_1129, 0xF44F_2413, 0x33EF_4E67, 0x67DE_9CCE, 0xCFBD_399C, 0x440B_7579, 0x8816_EAF2),
    sums!([0] 0xCCAA_009E, 0x4225_077D, 0x844A_0EFA, 0xD3E5_1BB5, 0x7CBB_312B, 0xF976_6256, 0x299D_C2ED, 0x533B_85DA),
];
