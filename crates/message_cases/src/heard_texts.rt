// Inputs of which a message is heard, with separators around it, and others.
pub(crate) const TABLE: &str = "
inputs that are heard
<\\r\\nCSM(MCL/RSI RCV/BANKB ORG/BANKA SVR/KD EDC/00000000)\\n> = heard CSM(MCL/RSI RCV/BANKB ORG/BANKA SVR/KD EDC/00000000)
<> = 5 at 0
< \\r\\n> = 5 at 3
< CSM(MCL/RSI> = 7 at 12
<  CSM(MCL/RSI RCV/BANKB RCV/BANKB ORG/BANKA)> = 10 RCV at 24
<CSM(MCL/RSI RCV/BANKB ORG/BANKA SVR/KD EDC/00000000) X> = 38 at 53
";
