//! The head of the page, with its style.

/// All before the title. The policy lets nothing be loaded or run.
pub(crate) const HEAD: &str = "<!DOCTYPE html>
<html lang=\"en\">
<head>
<meta charset=\"utf-8\">
<meta http-equiv=\"Content-Security-Policy\" content=\"default-src 'none'; style-src 'unsafe-inline'\">
<meta name=\"viewport\" content=\"width=device-width, initial-scale=1\">
";

/// All between the title and the text.
pub(crate) const STYLE: &str = "<style>
:root { color-scheme: light dark; --back: #fbfbfa; --card: #fff; --text: #1d2126; --soft: #5c6570;
  --line: #dcdfe3; --bar: #2f6db3; --pale: #a9b4c0; --warn: #9c2f24; }
@media (prefers-color-scheme: dark) {
  :root { --back: #15181c; --card: #1d2126; --text: #e4e7ea; --soft: #9aa4af; --line: #343a41;
    --bar: #6aa5e6; --pale: #586471; --warn: #ef9187; } }
body { margin: 0 auto; max-width: 1200px; padding: 2rem 1.25rem 4rem; background: var(--back);
  color: var(--text); font: 15px/1.5 system-ui, sans-serif; }
h1 { margin: 0; font-size: 1.6rem; font-weight: 600; overflow-wrap: anywhere; }
h2 { margin: 0 0 .25rem; font-size: 1.1rem; font-weight: 600; }
p { margin: 0 0 .75rem; color: var(--soft); }
section { margin-top: 1.25rem; padding: 1.25rem; background: var(--card); border: 1px solid var(--line);
  border-radius: 8px; }
section.failed { border-color: var(--warn); }
.failed h2, .expired, .partial { color: var(--warn); }
.failed th:last-child, .failed td:last-child { text-align: left; white-space: normal; min-width: 16rem;
  overflow-wrap: anywhere; }
summary { color: var(--soft); cursor: pointer; }
dl { display: grid; grid-template-columns: repeat(auto-fill, minmax(150px, 1fr)); gap: 1rem; margin: 0; }
dt { color: var(--soft); font-size: .85rem; }
dd { margin: 0; font-size: 1.25rem; font-variant-numeric: tabular-nums; }
small { display: block; color: var(--soft); font-size: .85rem; }
figure { margin: 0; overflow-x: auto;
  background: linear-gradient(90deg, var(--card) 30%, transparent), linear-gradient(270deg, var(--card) 30%, transparent)
    100% 0, linear-gradient(90deg, var(--line), transparent), linear-gradient(270deg, var(--line), transparent) 100% 0;
  background-attachment: local, local, scroll, scroll; background-repeat: no-repeat;
  background-size: 3rem 100%, 3rem 100%, 1rem 100%, 1rem 100%; }
svg { display: block; width: 100%; min-width: 720px; font: 13px system-ui, sans-serif; }
svg text { fill: var(--text); }
svg .head { fill: var(--soft); }
svg .label { text-anchor: end; }
svg rect { fill: var(--bar); }
svg .pale rect { fill: var(--pale); }
table { border-collapse: collapse; width: 100%; font-size: .85rem; font-variant-numeric: tabular-nums; }
th, td { padding: .3rem .6rem; border-bottom: 1px solid var(--line); text-align: right; font-weight: 400;
  vertical-align: top; white-space: nowrap; }
thead th, tfoot th, tfoot td { font-weight: 600; }
th:first-child { text-align: left; white-space: normal; min-width: 13rem; overflow-wrap: anywhere; }
</style>
</head>
<body>
";
