//! A small drawing that is read over and over.

/// A drawing as CAD systems write it, but for its last pair: 719 bytes, 63 pairs, four segments and a name. The two blanks at the end
/// of a row stand before the code that begins the next one.
pub const DRAWING: &[u8] = b"  \
    0\r\nSECTION\r\n  2\r\nHEADER\r\n  9\r\n$ACADVER\r\n  1\r\nAC1009\r\n  9\r\n$EXTMIN\r\n 10\r\n0.0\r\n 20\r\n0.0\r\n 30\r\n0.0\r\n  \
    0\r\nENDSEC\r\n  \
    0\r\nSECTION\r\n  2\r\nTABLES\r\n  \
    0\r\nTABLE\r\n  2\r\nLAYER\r\n 70\r\n1\r\n  \
    0\r\nLAYER\r\n  2\r\nCUT\r\n 70\r\n0\r\n 62\r\n7\r\n  6\r\nCONTINUOUS\r\n  \
    0\r\nENDTAB\r\n  \
    0\r\nENDSEC\r\n  \
    0\r\nSECTION\r\n  2\r\nBLOCKS\r\n  \
    0\r\nENDSEC\r\n  \
    0\r\nSECTION\r\n  2\r\nENTITIES\r\n  \
    0\r\nPOLYLINE\r\n  8\r\nCUT\r\n 66\r\n1\r\n 10\r\n0.0\r\n 20\r\n0.0\r\n 30\r\n0.0\r\n 70\r\n1\r\n  \
    0\r\nVERTEX\r\n  8\r\nCUT\r\n 10\r\n0.0\r\n 20\r\n0.0\r\n 30\r\n0.0\r\n  \
    0\r\nVERTEX\r\n  8\r\nCUT\r\n 10\r\n20.0\r\n 20\r\n0.0\r\n 30\r\n0.0\r\n  \
    0\r\nVERTEX\r\n  8\r\nCUT\r\n 10\r\n20.0\r\n 20\r\n10.0\r\n 30\r\n0.0\r\n  \
    0\r\nVERTEX\r\n  8\r\nCUT\r\n 10\r\n0.0\r\n 20\r\n10.0\r\n 30\r\n0.0\r\n  \
    0\r\nSEQEND\r\n  8\r\nCUT\r\n  \
    0\r\nTEXT\r\n  8\r\nCUT\r\n 10\r\n5.0\r\n 20\r\n5.0\r\n 30\r\n0.0\r\n 40\r\n2.5\r\n  1\r\nBRACKET\r\n  \
    0\r\nENDSEC\r\n";

/// Its last pair.
pub const LAST_PAIR: &[u8] = b"  0\r\nEOF\r\n";
